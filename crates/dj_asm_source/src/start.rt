ghost use Rattle.std.specs.Prelude.{◌≡◌};
ghost use Rattle.std.specs.Option.{option_map};
ghost use Rattle.dj_asm_tokens.specs.trusted.Words.{word_units};
ghost use Rattle.dj_asm_tokens.specs.WordReading.{row_of};
ghost use Rattle.dj_asm_source.specs.LineReading.{directives, start_in, line_after};
ghost use Rattle.dj_asm_tokens.specs.Views.{left_of};
ghost use Rattle.dj_asm_source.specs.LineViews.{line_view};
ghost use Rattle.dj_asm_source.specs.LineStarts.{directive_view, start_view};
ghost use Rattle.dj_asm_source.specs.Stops.{GivesRead};

use crate::body::{catch_line, frame_line, label_line, operation_line};
use crate::head::{
    abstract_line, class_line, end_line, field_line, implements_line, locals_line, method_line,
    stack_line, super_line, version_line,
};
use crate::reader::Stop;
use crate::syntax::Line;
use dj_asm_tokens::{LineTokens, Word, label_of, opcode_of, row_at};
use std::alloc::Global;

/// A line that begins with a word with a dot before it.
#[derive(Clone, Copy)]
pub(crate) enum Directive {
    Class,
    Version,
    Super,
    Implements,
    Field,
    Abstract,
    Method,
    Stack,
    Locals,
    Catch,
    Frame,
    End,
}

/// What the first word of a line means.
#[derive(Clone, Copy)]
pub(crate) enum LineStart<'t> {
    Directive(Directive),
    /// This label is defined.
    Label(Word<'t>),
    /// An instruction, by its opcode.
    Operation(u8),
}

static DIRECTIVES: [(&'static [u8], Directive); 12] = [
    (b".class", Directive::Class),
    (b".version", Directive::Version),
    (b".super", Directive::Super),
    (b".implements", Directive::Implements),
    (b".field", Directive::Field),
    (b".abstract", Directive::Abstract),
    (b".method", Directive::Method),
    (b".stack", Directive::Stack),
    (b".locals", Directive::Locals),
    (b".catch", Directive::Catch),
    (b".frame", Directive::Frame),
    (b".end", Directive::End),
];

fn directive_of(bytes: &[u8]) -> Option<Directive>
    ensures { option_map directive_view result ≡ row_of directives (word_units 0 bytes.now) }
{
    row_at(&DIRECTIVES, bytes)
}

/// What a word at the beginning of a line means.
pub(crate) fn start_of(bytes: &[u8]) -> Option<LineStart<'_>>
    ensures { option_map start_view result ≡ start_in (word_units 0 bytes.now) }
{
    if let Some(directive) = directive_of(bytes) {
        return Some(LineStart::Directive(directive));
    }
    if let Some(label) = label_of(bytes) {
        return Some(LineStart::Label(Word { bytes: label }));
    }
    Some(LineStart::Operation(opcode_of(bytes)?))
}

/// The line after the word that begins it.
pub(crate) fn line_after<'t>(
    alloc: Global,
    start: LineStart<'t>,
    at: LineTokens<'t>,
) -> Result<(Line<'t>, LineTokens<'t>), Stop>
    ensures { GivesRead (λ x. line_view x.0) (λ x. left_of x.1) result (line_after (start_view start.entry) (left_of at.entry)) }
{
    match start {
        LineStart::Directive(directive) => directive_line(alloc, directive, at),
        LineStart::Label(label) => label_line(label, at),
        LineStart::Operation(op) => operation_line(alloc, op, at),
    }
}

fn directive_line<'t>(
    alloc: Global,
    directive: Directive,
    at: LineTokens<'t>,
) -> Result<(Line<'t>, LineTokens<'t>), Stop>
    ensures { GivesRead (λ x. line_view x.0) (λ x. left_of x.1) result (line_after (directive_view directive) (left_of at.entry)) }
{
    match directive {
        Directive::Class => class_line(alloc, at),
        Directive::Version => version_line(at),
        Directive::Super => super_line(alloc, at),
        Directive::Implements => implements_line(alloc, at),
        Directive::Field => field_line(alloc, at),
        Directive::Abstract => abstract_line(alloc, at),
        Directive::Method => method_line(alloc, at),
        Directive::Stack => stack_line(at),
        Directive::Locals => locals_line(at),
        Directive::Catch => catch_line(alloc, at),
        Directive::Frame => frame_line(alloc, at),
        Directive::End => end_line(at),
    }
}
