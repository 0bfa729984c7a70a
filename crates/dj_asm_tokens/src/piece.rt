ghost use Rattle.std.specs.Prelude.{◌≡◌, ◌<◌, ◌≤◌, ◌||◌, not, false, length, slice_index, IfNone};
ghost use Rattle.std.specs.List.{prefix_len, list_all};
ghost use Rattle.dj_asm_tokens.specs.trusted.Words.{is_blank, is_plain, bad, word_piece, string_piece, comment_piece, piece_of};
ghost use Rattle.dj_asm_tokens.specs.Views.{piece_view};

use crate::bytes::{is_blank, is_plain};
use crate::string::after_string;
use crate::token::{Quoted, Token, Word};

/// What a line's bytes begin with, and how many of them it has. A comment is no token.
#[derive(Clone, Copy)]
pub(crate) struct Piece<'t> {
    pub token: Option<Token<'t>>,
    pub size: usize,
}

/// What the bytes begin with, where that is no blank.
pub(crate) fn piece_at(bytes: &[u8]) -> Piece<'_>
    requires some { 0 < length bytes.now }
    requires word { is_blank (slice_index bytes.now 0) ≡ false }
    ensures piece { piece_view result ≡ piece_of bytes.now }
    ensures some { 0 < result.size }
    ensures within { result.size ≤ length bytes.now }
    ensures comment { IfNone result.token (result.size ≡ length bytes.now) }
{
    match bytes[0] {
        b'#' => comment_piece(bytes),
        b'"' => string_piece(bytes),
        _ => word_piece(bytes),
    }
}

/// A bad token takes the rest of its line.
fn bad(bytes: &[u8]) -> Piece<'_>
    ensures piece { piece_view result ≡ bad bytes.now }
    ensures all { result.size ≡ length bytes.now }
{
    Piece {
        token: Some(Token::Bad),
        size: bytes.len(),
    }
}

fn comment_piece(bytes: &[u8]) -> Piece<'_>
    ensures piece { piece_view result ≡ comment_piece bytes.now }
    ensures all { result.size ≡ length bytes.now }
{
    if is_comment(bytes) {
        Piece {
            token: None,
            size: bytes.len(),
        }
    } else {
        bad(bytes)
    }
}

fn word_piece(bytes: &[u8]) -> Piece<'_>
    requires some { 0 < length bytes.now }
    requires word { is_blank (slice_index bytes.now 0) ≡ false }
    ensures piece { piece_view result ≡ word_piece bytes.now }
    ensures some { 0 < result.size }
    ensures within { result.size ≤ length bytes.now }
    ensures comment { IfNone result.token (result.size ≡ length bytes.now) }
{
    let size = word_size(bytes);
    let word = &bytes[..size];
    if are_plain(word) {
        Piece {
            token: Some(Token::Word(Word { bytes: word })),
            size,
        }
    } else {
        bad(bytes)
    }
}

/// Whether all bytes may be in a comment.
fn is_comment(bytes: &[u8]) -> bool
    ensures { result ≡ list_all (λ b. is_plain b || is_blank b) bytes.now }
{
    bytes.iter().all(|b| is_plain(*b) || is_blank(*b))
}

/// Whether all bytes may be in a word.
fn are_plain(bytes: &[u8]) -> bool
    ensures { result ≡ list_all is_plain bytes.now }
{
    bytes.iter().all(|b| is_plain(*b))
}

/// How many bytes there are up to the first blank.
fn word_size(bytes: &[u8]) -> usize
    ensures size { result ≡ prefix_len (λ b. not (is_blank b)) bytes.now }
    ensures within { result ≤ length bytes.now }
{
    let mut size = 0;
    let mut rest = bytes;
    while let [first, after @ ..] = rest {
        if is_blank(*first) {
            break;
        }
        size += 1;
        rest = after;
    }
    size
}

fn string_piece(bytes: &[u8]) -> Piece<'_>
    requires { 0 < length bytes.now }
    ensures piece { piece_view result ≡ string_piece bytes.now }
    ensures some { 0 < result.size }
    ensures within { result.size ≤ length bytes.now }
    ensures comment { IfNone result.token (result.size ≡ length bytes.now) }
{
    let string = &bytes[1..];
    match after_string(string) {
        Some(more) if more.is_empty() || is_blank(more[0]) => Piece {
            token: Some(Token::Quoted(Quoted { bytes: string })),
            size: bytes.len() - more.len(),
        },
        _ => bad(bytes),
    }
}
