// From any bytes to what the calls work on.
ghost use Rattle.graph.specs.promises.Archive.{LoadedAs};

use crate::archive::Archive;
use crate::enlarge::enlarge;
use crate::words::WordRule;
use house_layout::Refusal;
use search::Graph;

// Checks any bytes and makes of an accepted file what the calls work on.
pub fn load(file: &[u8]) -> Result<Archive, Refusal>
    ensures { LoadedAs file.now result }
{
    let house = house_file::read(file)?;
    let h = house.header;
    let words = WordRule {
        labels: h.labels,
        language: h.language,
        longest: h.longest,
    };
    let graph = Graph {
        parties: h.parties,
        table: enlarge(words, h.parties, &house.kinds),
    };
    let permits = house.permits;
    Ok(Archive {
        graph,
        words,
        permits,
    })
}
