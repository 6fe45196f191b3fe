//! How many rows of each table hold.
use std::alloc::{AllocError, Global};

/// The table that is read, whose rows are one after the other.
#[derive(Drop)]
pub struct Tally {
    line: u64,
    table: String,
    count: u64,
    has_row: bool,
}

impl Tally {
    pub fn new(alloc: Global) -> Tally {
        Tally {
            line: 0,
            table: String::new(alloc),
            count: 0,
            has_row: true,
        }
    }

    /// Goes on to the next line.
    pub fn begin_line(&mut self) {
        self.line = self.line.saturating_add(1);
    }

    /// What is said of a line that is no row.
    pub fn unread(&self, alloc: Global) -> Result<String, AllocError> {
        format!(in alloc; "line {}: not JSON\n", self.line)
    }

    /// What is said where nothing is asked of what was given last.
    fn unasked(&self, alloc: Global) -> Result<String, AllocError> {
        if self.has_row {
            return Ok(String::new(alloc));
        }
        format!(in alloc;
            "line {}: nothing is asked of what was given before\n",
            self.line
        )
    }

    /// Goes on to what is given here for the rows after it. What is said of what was given before.
    pub fn give(&mut self, alloc: Global) -> Result<String, AllocError> {
        let text = self.unasked(alloc)?;
        self.has_row = false;
        Ok(text)
    }

    /// What is said of a table that ends here.
    fn table(&self, alloc: Global) -> Result<String, AllocError> {
        if self.table.is_empty() {
            return Ok(String::new(alloc));
        }
        format!(in alloc; "{}: {} rows\n", self.table, self.count)
    }

    /// What is said at the end.
    pub fn end(&self, alloc: Global) -> Result<String, AllocError> {
        let text = self.unasked(alloc)?;
        let table = self.table(alloc)?;
        format!(in alloc; "{text}{table}")
    }

    /// Begins a table, where a row is not of the one that is read; what is said of that.
    fn begin_table(&mut self, alloc: Global, table: &str) -> Result<String, AllocError> {
        self.has_row = true;
        if self.table.as_str() == table {
            return Ok(String::new(alloc));
        }
        let text = self.table(alloc)?;
        self.table = String::from_str(alloc, table)?;
        self.count = 0;
        Ok(text)
    }

    /// What is said of a row, and of a table that ends before it, where another answer is expected.
    pub fn note(
        &mut self,
        alloc: Global,
        table: &str,
        found: &str,
        expected: &str,
    ) -> Result<String, AllocError> {
        let text = self.begin_table(alloc, table)?;
        format!(in alloc;
            "{text}{table} {}: found {found:?}, expected {expected:?}\n",
            self.line
        )
    }

    /// Counts a row whose answer is what is expected. What is said of a table that ends before it.
    pub fn count(&mut self, alloc: Global, table: &str) -> Result<String, AllocError> {
        let text = self.begin_table(alloc, table)?;
        self.count = self.count.saturating_add(1);
        Ok(text)
    }
}
