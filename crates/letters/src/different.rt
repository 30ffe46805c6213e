// The classes: the different masks of a graph, of which there is room for 32.
ghost use Rattle.std.specs.Prelude.{◌≤◌};
ghost use Rattle.limits.specs.Limits.{symbol_count};

use crate::MOST_LETTERS;
use crate::pair::mask_of_pair;
use limits::PAIR_NUMBERS;
use masks::Table;

// The classes found so far, none of them empty.
// Kept: a count beside an array, since there is no heap here and room for 32; a const parameter for the 32 would have this one value only.
// Kept: only the lines that append are alike here and in `Least`, where there is always room, so a generic type for both would be longer.
#[derive(Clone, Copy)]
pub struct Classes {
    pub count: usize,
    pub masks: [u32; MOST_LETTERS],
    ghost roomy: { count ≤ symbol_count },
}

impl Classes {
    ghost use Rattle.std.specs.Prelude.{◌≡◌, true, IfSome};
    ghost use Rattle.limits.specs.Limits.{pair_numbers};
    ghost use Rattle.letters.specs.promises.Writing.{Listed, ClassesOf, ClassAdded};

    fn new() -> Classes {
        Classes {
            count: 0,
            masks: [0; MOST_LETTERS],
        }
    }

    // The classes of a graph, if there is room for each.
    pub fn of(g: &Table) -> Option<Classes>
        ensures { IfSome result (ClassesOf g.now pair_numbers) }
    {
        let mut c = Classes::new();
        for k in 0..PAIR_NUMBERS {
            c = c.with(mask_of_pair(g, k))?;
        }
        Some(c)
    }

    // Whether the mask is one of the classes.
    fn listed(&self, mask: u32) -> bool
        ensures { result ≡ true → Listed self.now mask }
    {
        self.masks[..self.count].contains(&mask)
    }

    // The classes with the mask too, unless it is empty, if there is room.
    fn with(mut self, mask: u32) -> Option<Classes>
        ensures { IfSome result (ClassAdded self mask) }
    {
        if mask == 0 || self.listed(mask) {
            return Some(self);
        }
        if self.count == MOST_LETTERS {
            return None;
        }
        self.masks[self.count] = mask;
        self.count += 1;
        Some(self)
    }

    // Whether some class is contained in another. Then a path has many words of classes, and not one.
    pub fn nested(&self) -> bool {
        let classes = &self.masks[..self.count];
        classes
            .iter()
            .any(|a| classes.iter().any(|b| a != b && a | b == *b))
    }
}
