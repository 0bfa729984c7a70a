ghost use Rattle.std.specs.Prelude.{◌≡◌, ◌+◌, ◌-◌, ◌^◌, ◌<◌, ◌≤◌, ◌∷◌, [], ◌==◌, length, take, drop, MatchOption, IfSome};
ghost use Rattle.std.specs.List.{position_or_len};
ghost use Rattle.std.specs.Str.Lines.{lines, strip_carriage_return};
ghost use Rattle.dj_asm_tokens.specs.trusted.Words.{end_line};

/// The first line of a text, and the bytes after it.
#[tactic(auto, using(crate::proofs::LineLaws::last_line, crate::proofs::LineLaws::first_line))]
pub fn line_at(text: &[u8]) -> Option<(&[u8], &[u8])>
    ensures lines { MatchOption result (lines text.now ≡ []) (λ x. lines text.now ≡ x.0.now ∷ lines x.1.now) }
    ensures within { IfSome result (λ x. length x.0.now + length x.1.now ≤ length text.now) }
    ensures shorter { IfSome result (λ x. length x.1.now < length text.now) }
{
    if text.is_empty() {
        return None;
    }
    let size = line_size(text);
    if size == text.len() {
        Some((text, &text[size..]))
    } else {
        Some((without_return(&text[..size]), &text[size + 1..]))
    }
}

/// How many bytes there are up to the first line feed.
fn line_size(text: &[u8]) -> usize
    ensures size { result ≡ position_or_len (λ b. b == 10) text.now }
    ensures within { result ≤ length text.now }
{
    let mut size = 0;
    let mut rest = text;
    while let [first, after @ ..] = rest {
        if *first == b'\n' {
            break;
        }
        size += 1;
        rest = after;
    }
    size
}

/// A line without the one carriage return at its end, where it has one.
fn without_return(line: &[u8]) -> &[u8]
    ensures line { result.now ≡ strip_carriage_return line.now }
    ensures within { length result.now ≤ length line.now }
{
    match line {
        [prefix @ .., b'\r'] => prefix,
        _ => line,
    }
}

/// The number after the last line, where the lines begin with this number.
pub fn lines_after(first: u32, text: &[u8]) -> u32
    requires { first + length text.now < 2 ^ 32 }
    ensures { result ≡ length (lines text.now) + first }
{
    let mut number = first;
    let mut rest = text;
    while let Some((_, after)) = line_at(rest) {
        number += 1;
        rest = after;
    }
    number
}
