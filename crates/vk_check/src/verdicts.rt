use vk_base::List;

/// Whether a report is the one that is wanted.
#[derive(Drop)]
pub enum Verdict {
    /// The two have the same bytes.
    Yes,
    /// They differ.
    No {
        /// The first line at which they differ, counted from 1.
        line: u32,
        /// The wanted line there, without its line feed; `None` where the wanted report has ended.
        want: Option<List<u8>>,
    },
}
