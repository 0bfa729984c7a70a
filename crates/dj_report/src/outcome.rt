// Each function appends a part of the text of a run.
ghost use Rattle.std.specs.Prelude.{◌≡◌, ◌<◌, ◌++◌, OnOk};
ghost use Rattle.std.specs.List.{flat_map};
ghost use Rattle.dj_report.specs.trusted.Outcomes.{low_hex_digit, byte_hex, unit_hex, bytes_text, units_text, message_text, thrown_text};
ghost use Rattle.dj_report.specs.trusted.Outcomes.{charge_name, outcome_text, cost_text, costs_text, raw_text, run_text, ran_text, outcome_status};

use crate::bytes::ReportError;
use crate::parts::{put_decimal, put_escaped};
use dj_names::{Charge, Costs, Message, Outcome};

fn low_hex_digit_of(d: u8) -> u8
    requires { d < 16 }
    ensures { result ≡ low_hex_digit d }
{
    if d < 10 { b'0' + d } else { b'a' - 10 + d }
}

fn put_byte(out: &mut Vec<u8>, byte: u8) -> Result<(), ReportError>
    ensures { OnOk result (out.new.items ≡ out.old.items ++ byte_hex byte) }
{
    out.push(low_hex_digit_of(byte / 16))?;
    out.push(low_hex_digit_of(byte % 16))?;
    Ok(())
}

fn put_unit(out: &mut Vec<u8>, unit: u16) -> Result<(), ReportError>
    ensures { OnOk result (out.new.items ≡ out.old.items ++ unit_hex unit) }
{
    put_byte(out, (unit / 256) as u8)?;
    put_byte(out, (unit % 256) as u8)
}

fn put_byte_digits(out: &mut Vec<u8>, bytes: &[u8]) -> Result<(), ReportError>
    ensures { OnOk result (out.new.items ≡ out.old.items ++ flat_map byte_hex bytes.now) }
{
    for byte in bytes {
        put_byte(out, *byte)?;
    }
    Ok(())
}

fn put_unit_digits(out: &mut Vec<u8>, units: &[u16]) -> Result<(), ReportError>
    ensures { OnOk result (out.new.items ≡ out.old.items ++ flat_map unit_hex units.now) }
{
    for unit in units {
        put_unit(out, *unit)?;
    }
    Ok(())
}

fn put_bytes(out: &mut Vec<u8>, bytes: &[u8]) -> Result<(), ReportError>
    ensures { OnOk result (out.new.items ≡ out.old.items ++ bytes_text bytes.now) }
{
    if bytes.is_empty() {
        out.push(b'0')?;
        Ok(())
    } else {
        put_decimal(out, bytes.len() as u64)?;
        out.push(b' ')?;
        put_byte_digits(out, bytes)
    }
}

fn put_units(out: &mut Vec<u8>, units: &[u16]) -> Result<(), ReportError>
    ensures { OnOk result (out.new.items ≡ out.old.items ++ units_text units.now) }
{
    if units.is_empty() {
        out.push(b'0')?;
        Ok(())
    } else {
        put_decimal(out, units.len() as u64)?;
        out.push(b' ')?;
        put_unit_digits(out, units)
    }
}

fn put_message(out: &mut Vec<u8>, message: &Message) -> Result<(), ReportError>
    ensures { OnOk result (out.new.items ≡ out.old.items ++ message_text message.now) }
{
    match message {
        Message::Null => {
            out.extend_from_slice(b"null")?;
            Ok(())
        }
        Message::Text(units) => put_units(out, units.as_slice()),
    }
}

fn put_thrown(out: &mut Vec<u8>, class: &[u8], message: &Message) -> Result<(), ReportError>
    ensures { OnOk result (out.new.items ≡ out.old.items ++ thrown_text class.now message.now) }
{
    put_escaped(out, class)?;
    out.push(b' ')?;
    put_message(out, message)
}

fn charge_name_of(charge: Charge) -> &'static str
    ensures { result.now ≡ charge_name charge }
{
    match charge {
        Charge::Alloc => "alloc",
        Charge::Invoke => "invoke",
        Charge::Jump => "jump",
        Charge::Throw => "throw",
    }
}

fn put_outcome(out: &mut Vec<u8>, outcome: &Outcome) -> Result<(), ReportError>
    ensures { OnOk result (out.new.items ≡ out.old.items ++ outcome_text outcome.now) }
{
    match outcome {
        Outcome::OkNull => out.extend_from_slice(b"OK null")?,
        Outcome::OkBytes(bytes) => {
            out.extend_from_slice(b"OK ")?;
            put_bytes(out, bytes.as_slice())?;
        }
        Outcome::Threw(class, message) => {
            out.extend_from_slice(b"EXCEPTION ")?;
            put_thrown(out, class.as_slice(), message)?;
        }
        Outcome::Init(class, exception, message) => {
            out.extend_from_slice(b"INIT ")?;
            put_escaped(out, class.as_slice())?;
            out.push(b' ')?;
            put_thrown(out, exception.as_slice(), message)?;
        }
        Outcome::Link => out.extend_from_slice(b"LINK")?,
        Outcome::TooDeep => out.extend_from_slice(b"DEPTH")?,
        Outcome::Stopped(charge) => {
            out.extend_from_slice(b"THRESHOLD ")?;
            out.extend_from_slice(charge_name_of(*charge).as_bytes())?;
        }
        Outcome::HeapFull { used, size } => {
            out.extend_from_slice(b"HEAP ")?;
            put_decimal(out, *used)?;
            out.push(b' ')?;
            put_decimal(out, *size)?;
        }
        Outcome::OutOfSteps { steps } => {
            out.extend_from_slice(b"STEPS ")?;
            put_decimal(out, *steps)?;
        }
    }
    Ok(())
}

fn put_cost(out: &mut Vec<u8>, charge: Charge, amount: u64) -> Result<(), ReportError>
    ensures { OnOk result (out.new.items ≡ out.old.items ++ cost_text charge amount) }
{
    out.push(b' ')?;
    out.extend_from_slice(charge_name_of(charge).as_bytes())?;
    out.push(b' ')?;
    put_decimal(out, amount)
}

fn put_costs(out: &mut Vec<u8>, costs: &Costs) -> Result<(), ReportError>
    ensures { OnOk result (out.new.items ≡ out.old.items ++ costs_text costs.now) }
{
    out.extend_from_slice(b"costs")?;
    put_cost(out, Charge::Alloc, costs.alloc)?;
    put_cost(out, Charge::Invoke, costs.invoke)?;
    put_cost(out, Charge::Jump, costs.jump)?;
    put_cost(out, Charge::Throw, costs.throw)?;
    Ok(())
}

/// Appends the two lines of a run.
pub fn put_run(out: &mut Vec<u8>, outcome: &Outcome, costs: &Costs) -> Result<(), ReportError>
    ensures { OnOk result (out.new.items ≡ out.old.items ++ run_text outcome.now costs.now) }
{
    put_outcome(out, outcome)?;
    out.push(b'\n')?;
    put_costs(out, costs)?;
    out.push(b'\n')?;
    Ok(())
}

/// Appends the two lines of a run of `raw`.
pub fn put_raw(out: &mut Vec<u8>, outcome: &Outcome, steps: u64) -> Result<(), ReportError>
    ensures { OnOk result (out.new.items ≡ out.old.items ++ raw_text outcome.now steps) }
{
    put_outcome(out, outcome)?;
    out.extend_from_slice(b"\nsteps ")?;
    put_decimal(out, steps)?;
    out.push(b'\n')?;
    Ok(())
}

/// Appends the four lines of a run of rewritten classes.
pub fn put_ran(
    out: &mut Vec<u8>,
    outcome: &Outcome,
    costs: &Costs,
    code: &[u8],
    steps: u64,
) -> Result<(), ReportError>
    ensures { OnOk result (out.new.items ≡ out.old.items ++ ran_text outcome.now costs.now code.now steps) }
{
    put_run(out, outcome, costs)?;
    out.extend_from_slice(b"code ")?;
    put_byte_digits(out, code)?;
    out.extend_from_slice(b"\nsteps ")?;
    put_decimal(out, steps)?;
    out.push(b'\n')?;
    Ok(())
}

/// The status with which the program ends after such a run.
pub fn status_of_outcome(outcome: &Outcome) -> u8
    ensures { result ≡ outcome_status outcome.now }
{
    match outcome {
        Outcome::OkNull | Outcome::OkBytes(_) => 0,
        Outcome::Threw(_, _) => 1,
        Outcome::Stopped(_) => 3,
        Outcome::TooDeep => 4,
        Outcome::Init(_, _, _) => 5,
        Outcome::Link => 6,
        Outcome::OutOfSteps { .. } => 8,
        Outcome::HeapFull { .. } => 9,
    }
}
