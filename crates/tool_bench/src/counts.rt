// The numbers among the words after the program's name.
use crate::failed::Failed;

/// How often `tool_bench views` does each thing.
#[derive(Clone, Copy)]
pub struct ViewCounts {
    /// How many directories are made.
    pub makes: u64,
    /// After how many of them something is published; 0 for never.
    pub every: u64,
    /// How often a reader stats.
    pub reads: u64,
    /// How often a transaction requests a stat.
    pub asks: u64,
}

impl ViewCounts {
    /// Four numbers, in this order. Fails with the usage if the words are others.
    pub fn read(words: &[String]) -> Result<ViewCounts, Failed> {
        let [makes, every, reads, asks] = words else {
            return Err(Failed::Usage);
        };
        Ok(ViewCounts {
            makes: number(makes.as_str())?,
            every: number(every.as_str())?,
            reads: number(reads.as_str())?,
            asks: number(asks.as_str())?,
        })
    }

    /// Returns whether something is published once so many directories are made.
    pub fn publishes_at(&self, made: u64) -> bool {
        self.every > 0 && made % self.every == 0
    }
}

/// Returns the number that a word spells. Fails with the usage if it spells none.
pub fn number(word: &str) -> Result<u64, Failed> {
    word.parse::<u64>().ok().ok_or(Failed::Usage)
}
