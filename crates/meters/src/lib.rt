// The meters of the service menu (document 02 §5): of each resource how many grants and cuts there were, and the longest wait that ended in a
// grant. A call tells what it did to each resource by a mark; here marks are counted, by value and where the meters are. All numbers have 32
// bits and stay at their top.
#![tactic(auto)]

ghost use Rattle.std.specs.Prelude.{◌≡◌};
ghost use Rattle.meters.specs.Meters.{counted, counted_each, no_meters};

// What is counted of one resource.
#[derive(Clone, Copy)]
pub struct Meter {
    pub grants: u32,
    pub cuts: u32,
    pub longest: u32,
}

// What a call did to a resource: whether it cut the hold, whether it granted the resource anew, and the wait that this grant ended.
#[derive(Clone, Copy)]
pub struct Mark {
    pub cut: bool,
    pub granted: bool,
    pub waited: u32,
}

// A meter with a mark counted.
#[tactic(auto, unfolding(crate::specs::Meters::counted, crate::specs::Meters::one_more, crate::specs::Meters::longer))]
pub fn counted(meter: Meter, mark: Mark) -> Meter
    ensures { result ≡ counted meter mark }
{
    Meter {
        grants: meter.grants.saturating_add(u32::from(mark.granted)),
        cuts: meter.cuts.saturating_add(u32::from(mark.cut)),
        longest: if mark.granted {
            meter.longest.max(mark.waited)
        } else {
            meter.longest
        },
    }
}

// The same where the meter is.
pub fn count(meter: &mut Meter, mark: Mark)
    ensures { meter.new ≡ counted meter.old mark }
{
    *meter = counted(*meter, mark);
}

// Counts the mark of each resource, where its meter is.
#[tactic(auto, using(folds::proofs::EachLaws::each_step), unfolding(folds::specs::Each::each_below, crate::specs::Meters::counted_each))]
pub fn count_each(meters: &mut [Meter; sizes::RESOURCES], marks: [Mark; sizes::RESOURCES])
    ensures { meters.new ≡ counted_each meters.old marks }
{
    for (q, meter) in meters.iter_mut().enumerate() {
        count(meter, marks[q]);
    }
}

// The same by value.
pub fn counted_each(
    meters: [Meter; sizes::RESOURCES],
    marks: [Mark; sizes::RESOURCES],
) -> [Meter; sizes::RESOURCES]
    ensures { result ≡ counted_each meters marks }
{
    let mut kept = meters;
    count_each(&mut kept, marks);
    kept
}

// A start sets all meters to 0.
pub fn clear(meters: &mut [Meter; sizes::RESOURCES])
    ensures { meters.new ≡ no_meters }
{
    *meters = [Meter {
        grants: 0,
        cuts: 0,
        longest: 0,
    }; sizes::RESOURCES];
}
