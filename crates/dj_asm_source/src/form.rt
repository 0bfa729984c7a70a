ghost use Rattle.std.specs.Prelude.{◌≡◌};
ghost use Rattle.dj_ops.specs.trusted.Forms.{form_of};
ghost use Rattle.dj_asm_source.specs.FormViews.{form_view};

/// What follows an opcode.
#[derive(Clone, Copy)]
pub(crate) enum Form {
    Bare,
    SignedByte,
    SignedShort,
    ShortLiteral,
    LongLiteral,
    Slot,
    SlotAndByte,
    ShortOffset,
    LongOffset,
    MemberIndex,
    InterfaceIndex,
    DynamicIndex,
    ClassIndex,
    ArrayType,
    MultiIndex,
    TableSwitch,
    LookupSwitch,
    WidePrefix,
    Reserved,
}

/// The form of an opcode.
#[tactic(auto, unfolding(dj_ops::specs::trusted::Forms::form_of))]
pub(crate) fn form_of(op: u8) -> Form
    ensures { form_view result ≡ form_of op }
{
    match op {
        16 => Form::SignedByte,
        17 => Form::SignedShort,
        18 => Form::ShortLiteral,
        19..=20 => Form::LongLiteral,
        21..=25 | 54..=58 | 169 => Form::Slot,
        132 => Form::SlotAndByte,
        153..=168 | 198..=199 => Form::ShortOffset,
        170 => Form::TableSwitch,
        171 => Form::LookupSwitch,
        178..=184 => Form::MemberIndex,
        185 => Form::InterfaceIndex,
        186 => Form::DynamicIndex,
        187 | 189 | 192..=193 => Form::ClassIndex,
        188 => Form::ArrayType,
        196 => Form::WidePrefix,
        197 => Form::MultiIndex,
        200..=201 => Form::LongOffset,
        203..=255 => Form::Reserved,
        _ => Form::Bare,
    }
}
