// A rule list held against an archive's permit table: the pairs in order, up to the first that one permits and the other doesn't.
ghost use Rattle.std.specs.Prelude.{◌≡◌, true};
ghost use Rattle.rebac.specs.promises.Options.{is_some};
ghost use Rattle.fields.specs.Numbers.{Bytes};
ghost use Rattle.rule_bytes.specs.ListBytes.{decode_list};

use crate::call::Difference;
use graph::Archive;
use limits::MOST_PARTIES;
use mining::Pair;
use rules::meets_list;

// An archive, and a list that has passed its check.
#[derive(Clone, Copy)]
pub struct Comparison<'a> {
    pub archive: &'a Archive,
    pub list: &'a [u8],
    ghost bytes: { Bytes list.now },
    ghost checked: { is_some (decode_list archive.now.words.labels archive.now.words.language archive.now.words.longest list.now) ≡ true },
}

impl<'a> Comparison<'a> {
    ghost use Rattle.std.specs.Prelude.{◌&&◌, List, ◌/◌, ◌%◌, ◌<◌};
    ghost use Rattle.limits.specs.Limits.{most_parties, pair_numbers};
    ghost use Rattle.masks.specs.promises.Mask.{test_bit};
    ghost use Rattle.masks.specs.promises.Table.{mask_in};
    ghost use Rattle.rebac.specs.Matter.{Matter};
    ghost use Rattle.rebac.specs.Words.{Word};
    ghost use Rattle.mining.specs.promises.Pairs.{pair_at, is_pair_at};
    ghost use Rattle.comparison.specs.Compare.{differ, side_of, comparison};
    ghost use Rattle.comparison.specs.promises.Given.{Given};

    // Whether number k is a pair that the table or the list permits and the other doesn't.
    #[tactic(auto, using(crate::proofs::CompareLaws::no_pair, crate::proofs::CompareLaws::pair_differs))]
    fn differ_at(&self, k: usize) -> bool
        ensures { (M : Matter) (l : List (List Word)) → Given M l self.now.archive.now self.now.list.now
            → result ≡ (is_pair_at self.now.archive.now.graph.parties k && differ M l (pair_at k)) }
    {
        let p = Pair::at(k);
        let Ok(pair) = self.archive.pair(p.first, p.second) else {
            return false;
        };
        let by_file = p.is_in(&self.archive.permits);
        let by_list = meets_list(&pair, self.list);
        by_file != by_list
    }

    // The pair of number k, and the side that permits it.
    fn side_at(&self, k: usize) -> Difference
        requires { k < pair_numbers }
        ensures { result ≡ side_of (test_bit (mask_in self.now.archive.now.permits (k / most_parties)) (k % most_parties)) (pair_at k) }
    {
        let p = Pair::at(k);
        if p.is_in(&self.archive.permits) {
            return Difference::OnlyFile(p);
        }
        Difference::OnlyList(p)
    }

    // The pairs in order, up to the first difference; none where the table and the list permit the same pairs.
    #[tactic(auto, using(crate::proofs::CompareLaws::left_start))]
    pub fn first_difference(&self) -> Option<Difference>
        ensures { (M : Matter) (l : List (List Word)) → Given M l self.now.archive.now self.now.list.now → result ≡ comparison M l }
    {
        let count = MOST_PARTIES * self.archive.graph.parties;
        // Kept: no `find` and `map`: the second closure would ask that k numbers a pair, which here the range of the loop says.
        for k in 0..count {
            if self.differ_at(k) {
                return Some(self.side_at(k));
            }
        }
        None
    }
}
