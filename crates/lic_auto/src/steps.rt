//! How steps are counted.

ghost use Rattle.std.specs.Prelude.{◌<◌, ◌≤◌, ◌+◌, ◌*◌, ◌-◌, ◌^◌};
ghost use Rattle.std.specs.Str.{chars};
ghost use Rattle.lic_words.specs.Letters.{letters_in};

/// The steps before and those of a token that the templates of a machine take together: one for each letter, and one for each gap
/// before a letter. The count stays at the greatest `u64`.
pub fn count_steps(before: u64, token: &str) -> u64
    ensures least { result < 2 ^ 64 - 1 → before + letters_in (chars token.now) ≤ result }
    ensures most { result ≤ before + 2 * letters_in (chars token.now) }
    ensures never_fall { before ≤ result }
{
    let mut steps = before;
    let mut is_apart = true;
    for c in token.chars() {
        if c == ' ' {
            is_apart = true;
        } else {
            let gap = if is_apart { 1 } else { 0 };
            steps = steps.saturating_add(1 + gap);
            is_apart = false;
        }
    }
    steps
}
