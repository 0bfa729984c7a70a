ghost use Rattle.std.specs.Prelude.{◌≡◌};
ghost use Rattle.dj_early_rules.specs.trusted.Opcodes.{within, pushes_float, loads_float, stores_float, adds_float, divides_float, converts_float, ends_float, is_float_op, is_float_base, is_short_literal, is_subroutine_jump};

fn within(low: u8, high: u8, op: u8) -> bool
    ensures { result ≡ within low high op }
{
    low <= op && op <= high
}

fn pushes_float(op: u8) -> bool
    ensures { result ≡ pushes_float op }
{
    within(11, 15, op)
}

fn loads_float(op: u8) -> bool
    ensures { result ≡ loads_float op }
{
    within(23, 24, op) || within(34, 41, op) || within(48, 49, op)
}

fn stores_float(op: u8) -> bool
    ensures { result ≡ stores_float op }
{
    within(56, 57, op) || within(67, 74, op) || within(81, 82, op)
}

fn adds_float(op: u8) -> bool
    ensures { result ≡ adds_float op }
{
    within(98, 99, op) || within(102, 103, op) || within(106, 107, op)
}

fn divides_float(op: u8) -> bool
    ensures { result ≡ divides_float op }
{
    within(110, 111, op) || within(114, 115, op) || within(118, 119, op)
}

fn converts_float(op: u8) -> bool
    ensures { result ≡ converts_float op }
{
    within(134, 135, op) || within(137, 144, op)
}

fn ends_float(op: u8) -> bool
    ensures { result ≡ ends_float op }
{
    within(149, 152, op) || within(174, 175, op)
}

/// Whether the opcode is one of floats or doubles.
pub fn is_float_op(op: u8) -> bool
    ensures { result ≡ is_float_op op }
{
    match op {
        11..=15 | 23..=24 | 34..=41 | 48..=49 | 56..=57 | 67..=74 | 81..=82 => true,
        98..=99 | 102..=103 | 106..=107 | 110..=111 | 114..=115 | 118..=119 => true,
        134..=135 | 137..=144 | 149..=152 | 174..=175 => true,
        _ => false,
    }
}

/// Whether newarray makes an array of floats or doubles.
pub fn is_float_base(base: u8) -> bool
    ensures { result ≡ is_float_base base }
{
    within(6, 7, base)
}

/// Whether the opcode is ldc or ldc_w.
pub fn is_short_literal(op: u8) -> bool
    ensures { result ≡ is_short_literal op }
{
    within(18, 19, op)
}

/// Whether the opcode is jsr or jsr_w.
pub fn is_subroutine_jump(op: u8) -> bool
    ensures { result ≡ is_subroutine_jump op }
{
    op == 168 || op == 201
}
