// Picking the highest of a row.
#![tactic(auto)]

ghost use Rattle.highest.specs.Row.{FirstHighest};

// The place of the highest thing of a row, and of the first of several that rank equal; an empty row has none.
pub fn highest<T: Ord>(row: &[T]) -> Option<usize>
    ensures { FirstHighest T.Ord.cmp row.now result }
{
    if row.is_empty() {
        return None;
    }
    let mut best = 0;
    for (place, thing) in row.iter().enumerate() {
        // `cmp`, since `>` of slices and arrays goes element by element
        if thing.cmp(&row[best]).is_gt() {
            best = place;
        }
    }
    Some(best)
}
