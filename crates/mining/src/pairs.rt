// Pairs of an archive's parties.
ghost use Rattle.rebac.specs.Matter.{IsPair};
ghost use Rattle.mining.specs.Values.{pair_in};

use crate::build::Pair;
use graph::Archive;
use search::{PairIn, ShortWord, TwoPairsIn};
use words::next_word;

// A pair of the archive.
// Kept: apart from `search::PairIn`, which has its graph by value (01's form): from call to call here the archive goes by reference.
#[derive(Clone, Copy)]
pub struct ArchivePair<'a> {
    pub archive: &'a Archive,
    pub pair: Pair,
    ghost is_pair: { IsPair archive.now.graph.parties (pair_in pair) },
}

impl ArchivePair<'_> {
    ghost use Rattle.std.specs.Prelude.{◌≡◌, []};
    ghost use Rattle.rebac.specs.Matter.{Matter};
    ghost use Rattle.rebac.specs.NextWord.{next_word};
    ghost use Rattle.graph.specs.promises.Archive.{Shows};
    ghost use Rattle.words.specs.promises.Next.{WordAs};

    // The pair in the archive's graph.
    // Kept: no `From`, here and in `both`: promises by name read plainer than the one equation that `From` would give.
    pub fn in_graph(&self) -> PairIn
        ensures graph { result.graph ≡ self.now.archive.now.graph }
        ensures first { result.first ≡ self.now.pair.first }
        ensures second { result.second ≡ self.now.pair.second }
    {
        let graph = self.archive.graph;
        PairIn {
            graph,
            first: self.pair.first,
            second: self.pair.second,
        }
    }

    // Its first word.
    pub fn first_word(&self) -> Option<ShortWord>
        ensures { (M : Matter) → Shows M self.now.archive.now → WordAs (next_word M (pair_in self.now.pair) []) result }
    {
        next_word(
            &self.in_graph(),
            self.archive.words.longest,
            ShortWord::zeros(0),
        )
    }
}

// A pair whose words are sought, and another one that may lack some of them.
#[derive(Clone, Copy)]
pub struct TwoPairs<'a> {
    pub own: ArchivePair<'a>,
    pub other: Pair,
    ghost other_pair: { IsPair own.archive.now.graph.parties (pair_in other) },
}

impl TwoPairs<'_> {
    ghost use Rattle.std.specs.Prelude.{◌≡◌};

    // Both pairs in the archive's graph.
    pub fn both(&self) -> TwoPairsIn
        ensures graph { result.graph ≡ self.now.own.archive.now.graph }
        ensures own { (result.first ≡ self.now.own.pair.first) × (result.second ≡ self.now.own.pair.second) }
        ensures other { (result.u ≡ self.now.other.first) × (result.v ≡ self.now.other.second) }
    {
        let graph = self.own.archive.graph;
        TwoPairsIn {
            graph,
            first: self.own.pair.first,
            second: self.own.pair.second,
            u: self.other.first,
            v: self.other.second,
        }
    }

    // The other pair in the archive's graph.
    pub fn other(&self) -> PairIn
        ensures graph { result.graph ≡ self.now.own.archive.now.graph }
        ensures first { result.first ≡ self.now.other.first }
        ensures second { result.second ≡ self.now.other.second }
    {
        let other = ArchivePair {
            archive: self.own.archive,
            pair: self.other,
        };
        other.in_graph()
    }
}
