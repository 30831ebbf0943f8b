// The longest wait of a task for a resource, from a checked file and the tables of its figures and totals. The function is for the crates
// above, and says in its `requires` what it relies on.
#![tactic(auto)]

ghost use Rattle.std.specs.Prelude.{◌≡◌, length};
ghost use Rattle.plan_reading.specs.Plan.{plan_of};
ghost use Rattle.analysis_totals.specs.Totals.{SharingTask};
ghost use Rattle.machine_rules.specs.Longest.{fellows, longest_wait};

// How many fellows a task has on a resource, and how long it waits at most.
#[derive(Clone, Copy)]
pub struct Longest {
    pub fellows: u32,
    pub wait: u32,
}

// The longest wait of task i for the global resource q, which it uses: the limit with all its fellows ahead.
#[tactic(auto, using(crate::proofs::Limit::limit))]
pub fn longest_of(file: &[u8], figures: &[u16], totals: &[u32], i: usize, q: usize) -> Longest
    requires { SharingTask file.now figures.now totals.now i q }
    ensures { (result.fellows ≡ length (fellows (plan_of file.now) i q)) × (result.wait ≡ longest_wait (plan_of file.now) i q) }
{
    let task = plan_reading::checked::task(file, i);
    let wait = analysis_totals::wait_at(totals, usize::from(task.processor), q);
    let found = analysis_totals::fellows_of(file, figures, totals, i, q);
    Longest {
        fellows: found.count,
        wait: found.holds + (found.count + 1) * wait,
    }
}
