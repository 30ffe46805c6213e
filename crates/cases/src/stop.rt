// Why no further frame is run.
use std::io;

#[derive(Debug, Drop)]
pub enum Stop {
    // The script has ended, or has less than its frame says, or a frame asks for more than there is room for.
    Ended,
    Failed(io::Error),
}

impl From<io::Error> for Stop {
    fn from(e: io::Error) -> Stop {
        Stop::Failed(e)
    }
}
