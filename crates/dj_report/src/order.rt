ghost use Rattle.std.specs.Prelude.{◌≡◌, ◌↔◌, Contains};
ghost use Rattle.dj_report.specs.trusted.Order.{cmp_within_file, violation_cmp, IsInOrder};

use crate::report::{Violation, Violations};
use std::cmp::Ordering;

fn compare_within_file(a: &Violation, b: &Violation) -> Ordering
    ensures { result ≡ cmp_within_file a.now b.now }
{
    match a.member.as_slice().cmp(b.member.as_slice()) {
        Ordering::Equal => a.number.cmp(&b.number).then(a.rule.cmp(&b.rule)),
        other => other,
    }
}

/// Compares by the bytes of the path, those of the member, the number and the rule. None comes first.
pub fn compare(a: &Violation, b: &Violation) -> Ordering
    ensures { result ≡ violation_cmp a.now b.now }
{
    match a.path.as_slice().cmp(b.path.as_slice()) {
        Ordering::Equal => compare_within_file(a, b),
        other => other,
    }
}

impl PartialEq for Violation {
    ghost use Rattle.std.specs.Ordering.{eq_by_cmp};
    ghost use Rattle.std.specs.Cmp.{partial_equiv_from_equiv, eq_by_cmp_equiv};
    ghost use Rattle.dj_report.specs.trusted.Order.{violation_cmp};
    ghost use Rattle.dj_report.specs.OrderLaws.{violation_cmp_total};

    ghost eq = { eq_by_cmp violation_cmp };

    ghost laws = { partial_equiv_from_equiv (eq_by_cmp_equiv violation_cmp_total) };

    fn eq(&self, other: &Violation) -> bool {
        self.cmp(other).is_eq()
    }
}

impl Eq for Violation {
    ghost use Rattle.std.specs.Cmp.{eq_by_cmp_equiv};
    ghost use Rattle.dj_report.specs.OrderLaws.{violation_cmp_total};

    ghost laws = { eq_by_cmp_equiv violation_cmp_total };
}

impl PartialOrd for Violation {
    ghost use Rattle.std.specs.Prelude.{refl};
    ghost use Rattle.std.specs.Ordering.{as_partial_cmp};
    ghost use Rattle.std.specs.Cmp.{partial_order_from_agreeing_total};
    ghost use Rattle.dj_report.specs.trusted.Order.{violation_cmp};
    ghost use Rattle.dj_report.specs.OrderLaws.{violation_cmp_total};

    ghost partial_cmp = { as_partial_cmp violation_cmp };

    ghost laws = { partial_order_from_agreeing_total violation_cmp violation_cmp_total (λ _ _. refl) (λ _ _. refl) };

    fn partial_cmp(&self, other: &Violation) -> Option<Ordering> {
        Some(self.cmp(other))
    }
}

impl Ord for Violation {
    ghost use Rattle.std.specs.Prelude.{refl};
    ghost use Rattle.dj_report.specs.trusted.Order.{violation_cmp};
    ghost use Rattle.dj_report.specs.OrderLaws.{violation_cmp_total};

    ghost cmp = { violation_cmp };

    ghost total = { violation_cmp_total };

    ghost matches_partial_cmp = { λ _ _. refl };

    ghost matches_eq = { λ _ _. refl };

    fn cmp(&self, other: &Violation) -> Ordering {
        compare(self, other)
    }
}

/// The violations in the order of their lines, each once.
pub fn in_order(mut found: Vec<Violation>) -> Violations
    ensures ordered { IsInOrder result }
    ensures members { (v : Violation) → Contains result v ↔ Contains found.items v }
{
    found.sort_unstable();
    found.dedup();
    Violations::from(found)
}
