//! Where classes stand in a walk through the tree of superclasses. The walk is made first and looked at then, so that it need not be known to be right.
ghost use Rattle.std.specs.Prelude.{◌≡◌, ℕ, ◌<◌, true, length, get_or, IfOk, IfSome};
ghost use Rattle.dj_class_table.specs.Tables.{super_number};
ghost use Rattle.dj_member_index.specs.Spans.{AreSpans, IsNested, IsWithin, class_in, end_in, start_in};

use dj_class_table::ClassTable;
use std::alloc::{AllocError, Global};

// In place of the number of a class, or of a step, where there is none.
const NONE: u32 = 4_294_967_295;

/// Each class is entered in the walk before all that stand below it, and left after these.
#[derive(Drop)]
pub struct Spans {
    /// By the numbers of classes, the step that enters the class.
    pub starts: Vec<u32>,
    /// By the numbers of classes, the step that leaves it.
    pub ends: Vec<u32>,
    /// By the steps, the class that the step comes to.
    pub classes: Vec<u32>,
}

// What is known on a walk. One more than the highest number of a class stands for what is above all.
#[derive(Drop)]
struct Walk {
    // By the numbers of classes, the first of those below it that isn't entered yet.
    below: Vec<u32>,
    // By the numbers of classes, the next one of those below its superclass.
    next: Vec<u32>,
    // Where the walk is.
    at: u32,
    spans: Spans,
}

// The number at a place.
fn number_at(numbers: &[u32], place: u32) -> u32
    ensures { result ≡ get_or numbers.now place 4294967295 }
{
    match numbers.get(place as usize) {
        Some(number) => *number,
        None => NONE,
    }
}

fn put_at(numbers: &mut [u32], place: u32, number: u32) {
    if (place as usize) < numbers.len() {
        numbers[place as usize] = number;
    }
}

// The superclass of a class, or what is above all.
fn above(table: &ClassTable, class: u32) -> u32 {
    let count = table.class_count();
    if class < count {
        table.super_of(class).unwrap_or(count)
    } else {
        count
    }
}

impl Walk {
    // Above all classes, none of which is entered yet.
    fn of(alloc: Global, table: &ClassTable) -> Result<Walk, AllocError> {
        let count = table.class_count();
        let mut below = vec![in alloc; NONE; count as usize + 1]?;
        let mut next = vec![in alloc; NONE; count as usize]?;
        for class in 0..count {
            let above = above(table, class);
            put_at(&mut next, class, number_at(&below, above));
            put_at(&mut below, above, class);
        }
        let spans = Spans {
            starts: vec![in alloc; NONE; count as usize]?,
            ends: vec![in alloc; NONE; count as usize]?,
            classes: Vec::new(alloc),
        };
        Ok(Walk {
            below,
            next,
            at: count,
            spans,
        })
    }

    // Enters the next class below, or leaves the one where the walk is.
    fn make(&mut self, table: &ClassTable, step: u32) -> Result<(), AllocError> {
        let class = number_at(&self.below, self.at);
        if class == NONE {
            put_at(&mut self.spans.ends, self.at, step);
            self.at = above(table, self.at);
        } else {
            let next = number_at(&self.next, class);
            put_at(&mut self.below, self.at, next);
            put_at(&mut self.spans.starts, class, step);
            self.at = class;
        }
        self.spans.classes.push(self.at)?;
        Ok(())
    }
}

// Where the classes stand. Those whose superclasses go round are never entered.
fn spans_of(alloc: Global, table: &ClassTable) -> Result<Spans, AllocError> {
    let mut walk = Walk::of(alloc, table)?;
    for step in 0..table.class_count() * 2 {
        walk.make(table, step)?;
    }
    Ok(walk.spans)
}

impl Spans {
    /// The step that enters a class.
    pub fn start(&self, class: u32) -> u32
        ensures { result ≡ start_in self.now class }
    {
        number_at(&self.starts, class)
    }

    /// The step that leaves a class.
    pub fn end(&self, class: u32) -> u32
        ensures { result ≡ end_in self.now class }
    {
        number_at(&self.ends, class)
    }

    /// The class that a step comes to.
    pub fn class_at(&self, step: u32) -> u32
        ensures { result ≡ class_in self.now step }
    {
        number_at(&self.classes, step)
    }

    // Whether a class is entered after its superclass, where it has one, and left before.
    fn is_within(&self, class: u32, above: Option<u32>) -> bool
        ensures { result ≡ true → IsWithin self.now class above }
    {
        let Some(above) = above else {
            return true;
        };
        self.start(above) < self.start(class) && self.end(class) <= self.end(above)
    }

    // Whether a class is entered, then left, both within its superclass.
    fn is_nested(&self, table: &ClassTable, class: u32) -> bool
        requires { class < length table.now }
        ensures { result ≡ true → IsNested table.now self.now class }
    {
        let start = self.start(class);
        if self.class_at(start) != class || start >= self.end(class) {
            return false;
        }
        self.is_within(class, table.super_of(class))
    }

    // Whether all classes are.
    fn are_nested(&self, table: &ClassTable) -> bool
        ensures { result ≡ true → AreSpans table.now self.now }
    {
        for class in 0..table.class_count() {
            if !self.is_nested(table, class) {
                return false;
            }
        }
        true
    }

    /// Where the classes stand. None where superclasses go round.
    pub fn of(alloc: Global, table: &ClassTable) -> Result<Option<Spans>, AllocError>
        ensures { IfOk result (λ spans. IfSome spans (AreSpans table.now)) }
    {
        let spans = spans_of(alloc, table)?;
        if spans.are_nested(table) {
            Ok(Some(spans))
        } else {
            Ok(None)
        }
    }
}
