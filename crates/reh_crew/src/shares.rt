// How a survey is shared out: by what there is to read, so that one large ledger doesn't hold up the others' workers.
ghost use Rattle.std.specs.Prelude.{◌≡◌, ◌<◌, ◌≤◌, length};
ghost use Rattle.reh_crew.specs.Shares as model;

/// How many lines are the share of the first of so many workers, by what there is to read for each line: as few as come
/// to an even share. The last worker's are all.
pub(crate) fn first_share(costs: &[u32], workers: usize) -> usize
    requires { 0 < workers }
    ensures share { result ≡ model.first_share costs.now workers }
    ensures within { result ≤ length costs.now }
{
    if workers == 1 {
        return costs.len();
    }
    lines_to(costs, total(costs).div_ceil(workers))
}

/// All that there is to read.
fn total(costs: &[u32]) -> usize
    ensures { result ≡ model.total costs.now }
{
    let mut total: usize = 0;
    for cost in costs {
        total = total.saturating_add(*cost as usize);
    }
    total
}

/// How many lines, from the first one on, come to so much to read, or all, where they don't.
fn lines_to(costs: &[u32], much: usize) -> usize
    ensures lines { result ≡ model.lines_to much costs.now }
    ensures within { result ≤ length costs.now }
{
    let mut left = much;
    for (count, cost) in costs.iter().enumerate() {
        if left == 0 {
            return count;
        }
        left = left.saturating_sub(*cost as usize);
    }
    costs.len()
}
