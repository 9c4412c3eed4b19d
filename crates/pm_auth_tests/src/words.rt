//! Words as tables have them: `;` stands between two.

use pm_auth::{AuthNo, Rules};
use pm_rows::Text;
use std::alloc::Global;
use std::test::Fail;

fn words(alloc: Global, text: &str) -> Result<Vec<Text>, Fail> {
    let mut all = Vec::new(alloc);
    if !text.is_empty() {
        for word in text.split(';') {
            all.push(Text::of(alloc, word)?)?;
        }
    }
    Ok(all)
}

/// What these words are read as.
pub fn read(alloc: Global, rules: &str, secrets: &str) -> Result<Result<Rules, AuthNo>, Fail> {
    let rules = words(alloc, rules)?;
    let secrets = words(alloc, secrets)?;
    Ok(Rules::read(alloc, &rules, &secrets))
}
