//! What a workload tells of the rows that it left.
ghost use Rattle.std.specs.Prelude.{◌≡◌, ◌↔◌, ◌++◌, IfOk, IfSome, IsTrue, OnOk, codes, string_bytes};
ghost use Rattle.pm_load.specs.Summary.{last_word, summary_lines, summary_of};

use itoa::Buffer;
use pm_rows::Rows;
use std::alloc::{AllocError, Global};

/// What a workload tells of the rows that it left.
#[derive(Clone, Copy, Debug, PartialEq, Eq)]
pub struct Summary {
    pub commits: u64,
    pub rows: u64,
    pub key_sum: i64,
    /// The greatest key, where there is one.
    pub last_key: Option<i64>,
}

/// The summary of rows that so many commits have left, or none where the sum of their keys doesn't fit 64 bits.
pub fn summary_of(commits: u64, rows: &Rows) -> Option<Summary>
    ensures { IfSome result (λ summary. summary ≡ summary_of (record { rows = rows.now; count = commits })) }
{
    let (mut key_sum, mut last_key) = (0i64, None);
    for (key, _) in rows.iter() {
        let Some(sum) = key_sum.checked_add(key) else {
            return None;
        };
        key_sum = sum;
        last_key = Some(key);
    }
    Some(Summary {
        commits,
        rows: rows.len() as u64,
        key_sum,
        last_key,
    })
}

impl Summary {
    /// Whether both say the same.
    pub fn is_that(&self, other: &Summary) -> bool
        ensures { IsTrue result ↔ (self.now ≡ other.now) }
    {
        self == other
    }
}

/// The lines of a workload of so many queries.
pub fn summary_text(alloc: Global, number: u32, summary: &Summary) -> Result<String, AllocError>
    ensures { IfOk result (λ text. string_bytes text ≡ summary_lines number summary.now) }
{
    let mut text = String::new(alloc);
    let mut digits = Buffer::new();
    put_line(&mut text, "queries ", digits.format(number))?;
    put_line(&mut text, "commits ", digits.format(summary.commits))?;
    put_line(&mut text, "rows ", digits.format(summary.rows))?;
    put_line(&mut text, "key sum ", digits.format(summary.key_sum))?;
    match summary.last_key {
        Some(key) => put_line(&mut text, "last key ", digits.format(key))?,
        None => put_line(&mut text, "last key ", "none")?,
    }
    Ok(text)
}

fn put_line(text: &mut String, name: &str, value: &str) -> Result<(), AllocError>
    ensures { OnOk result (string_bytes text.new ≡ string_bytes text.old ++ (name.now ++ value.now ++ codes "\n")) }
{
    text.push_str(name)?;
    text.push_str(value)?;
    text.push_str("\n")
}
