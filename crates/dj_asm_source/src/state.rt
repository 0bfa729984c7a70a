ghost use Rattle.std.specs.Prelude.{◌≡◌, Some, None, if◌then◌else◌};
ghost use Rattle.std.specs.Option.{option_map};
ghost use Rattle.dj_asm_source.specs.Order.{after, is_final};
ghost use Rattle.dj_asm_source.specs.LineViews.{line_view};
ghost use Rattle.dj_asm_source.specs.LineReading.{may_begin, MethodLine};
ghost use Rattle.dj_asm_source.specs.LineStarts.{directive_view, start_view};
ghost use Rattle.dj_asm_source.specs.StateViews.{state_view};

use crate::start::{Directive, LineStart};
use crate::syntax::Line;

/// What may come next in a text.
#[derive(Clone, Copy)]
pub(crate) enum State {
    Class,
    /// The version or the superclass.
    Version,
    Super,
    /// Interfaces, fields or methods.
    Interfaces,
    /// Fields or methods.
    Fields,
    Methods,
    Stack,
    Locals,
    /// The lines of a body.
    Body,
    /// What may come between a frame and its instruction, and the instruction.
    Frame,
}

/// Whether such a line may come.
pub(crate) fn may_begin(state: State, start: LineStart<'_>) -> bool
    ensures { result ≡ may_begin (state_view state) (start_view start.entry) }
{
    match start {
        LineStart::Directive(directive) => may_direct(state, directive),
        LineStart::Label(_) => matches!(state, State::Body | State::Frame),
        LineStart::Operation(_) => matches!(state, State::Body | State::Frame),
    }
}

fn may_direct(state: State, directive: Directive) -> bool
    ensures { result ≡ may_begin (state_view state) (directive_view directive) }
{
    match directive {
        Directive::Class => matches!(state, State::Class),
        Directive::Version => matches!(state, State::Version),
        Directive::Super => matches!(state, State::Version | State::Super),
        Directive::Implements => matches!(state, State::Interfaces),
        Directive::Field => matches!(state, State::Interfaces | State::Fields),
        Directive::Abstract => matches!(state, State::Interfaces | State::Fields | State::Methods),
        Directive::Method => matches!(state, State::Interfaces | State::Fields | State::Methods),
        Directive::Stack => matches!(state, State::Stack),
        Directive::Locals => matches!(state, State::Locals),
        Directive::Catch => matches!(state, State::Body | State::Frame),
        Directive::Frame => matches!(state, State::Body),
        Directive::End => matches!(state, State::Body),
    }
}

/// What may come after a line, where the line is allowed.
pub(crate) fn after(state: State, line: &Line<'_>) -> Option<State>
    ensures { option_map state_view result ≡ after (state_view state) (line_view line.now) }
{
    match line {
        Line::Class { .. } => next(matches!(state, State::Class), State::Version),
        Line::Version { .. } => next(matches!(state, State::Version), State::Super),
        Line::Super(_) => next(
            matches!(state, State::Version | State::Super),
            State::Interfaces,
        ),
        Line::Implements(_) => next(matches!(state, State::Interfaces), State::Interfaces),
        Line::Field { .. } => next(
            matches!(state, State::Interfaces | State::Fields),
            State::Fields,
        ),
        Line::Abstract { .. } => next(is_before_methods(state), State::Methods),
        Line::Method { .. } => next(is_before_methods(state), State::Stack),
        Line::Stack(_) => next(matches!(state, State::Stack), State::Locals),
        Line::Locals(_) => next(matches!(state, State::Locals), State::Body),
        Line::Label(_) | Line::Catch { .. } => next(
            matches!(state, State::Body | State::Frame),
            state,
        ),
        Line::Frame(_) => next(matches!(state, State::Body), State::Frame),
        Line::Does(_) => next(matches!(state, State::Body | State::Frame), State::Body),
        Line::End => next(matches!(state, State::Body), State::Methods),
    }
}

/// Whether a method may come.
fn is_before_methods(state: State) -> bool
    ensures { result ≡ may_begin (state_view state) MethodLine }
{
    matches!(state, State::Interfaces | State::Fields | State::Methods)
}

/// This state, where it is allowed.
fn next(may: bool, state: State) -> Option<State>
    ensures { result ≡ (if may then Some state else None) }
{
    if may { Some(state) } else { None }
}

/// Whether the text may end here.
pub(crate) fn is_final(state: State) -> bool
    ensures { result ≡ is_final (Some (state_view state)) }
{
    matches!(state, State::Interfaces | State::Fields | State::Methods)
}
