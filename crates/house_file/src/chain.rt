// The chains of a file: each followed to its end, each record marked, the kinds of a chain gathered into a row.
ghost use Rattle.house_file.specs.promises.Reading.{Framed};

use fields::u16_at;
use house_layout::{HEAD_SIZE, HEADER_SIZE, Header, Refusal, bit_of, check_record, read_record};
use limits::MOST_RECORDS;
use masks::{Row, Table};

// A file whose header and length passed, and the header's numbers.
#[derive(Clone, Copy)]
pub struct Frame<'a> {
    pub file: &'a [u8],
    pub header: Header,
    ghost framed: { Framed file.now header },
}

impl Frame<'_> {
    ghost use Rattle.std.specs.Prelude.{◌≡◌, List, ℕ, ◌≤◌, ◌<◌, length};
    ghost use Rattle.limits.specs.Limits.{most_records};
    ghost use Rattle.house_file.specs.Check.{every_reached};
    ghost use Rattle.house_file.specs.promises.Reading.{RecordMarks, ChainRead, ChainsRead};

    // The kinds of party u's chain; `marks` has a place for each record, not 0 where it was reached.
    // Kept: a mark is the byte that the public `check_record` takes, where a bool would be a narrower type.
    fn read_chain(&self, u: usize, marks: &mut [u8; MOST_RECORDS]) -> Result<Row, Refusal>
        requires party { u < self.now.header.parties }
        requires places { length marks.old ≡ most_records }
        ensures places { length marks.new ≡ most_records }
        ensures read { (before : List ℕ) → RecordMarks marks.old before
            → ChainRead self.now.file.now u before result marks.new }
    {
        let h = self.header;
        let mut row = Row::empty();
        let mut at = u16_at(self.file, HEADER_SIZE + HEAD_SIZE * u);
        while at != 0 {
            if h.records < at {
                return Err(Refusal::Link);
            }
            let x = read_record(self.file, h, at);
            check_record(h, u, x, marks[at - 1], row)?;
            marks[at - 1] = 1;
            row = row.add(x.target, bit_of(x.kind));
            at = x.next;
        }
        Ok(row)
    }

    // Whether every record was reached.
    #[tactic(auto, using(crate::proofs::ReachedLaws::reached_where))]
    fn all_reached(&self, marks: &[u8; MOST_RECORDS]) -> bool
        ensures { (seen : List ℕ) → RecordMarks marks.now seen → result ≡ every_reached self.now.header.records seen }
    {
        !marks[..self.header.records].contains(&0)
    }

    // The kinds of the chains of all parties, in order.
    pub fn read_chains(&self) -> Result<Table, Refusal>
        ensures { ChainsRead self.now.file.now result }
    {
        let mut marks = [0u8; MOST_RECORDS];
        let mut kinds = Table::empty();
        for u in 0..self.header.parties {
            let row = self.read_chain(u, &mut marks)?;
            kinds = kinds.put_row(u, row);
        }
        if !self.all_reached(&marks) {
            return Err(Refusal::Unreached);
        }
        Ok(kinds)
    }
}
