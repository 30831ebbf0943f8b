// The image of a state: document 02 §3. How it is laid out, loaded into a state by value, tested, and stored again. The functions here
// are for the crates above: each says in its `requires` what it relies on.
#![tactic(auto)]

ghost use Rattle.std.specs.Prelude.{◌≡◌, ℕ, ◌<◌, List, replicate, ◌++◌, ◌*◌, ◌≤◌, length, get_or, drop};
ghost use Rattle.sizes.specs.Sizes.{most_tasks, most_resources};
ghost use Rattle.folds.specs.Below.{all_below};
ghost use Rattle.folds.specs.Bytes.{fields, row_at, bytes_below, placed_below};
ghost use Rattle.plan_reading.specs.Plan.{plan_of, Checked};
ghost use Rattle.machine_state.specs.Shows.{shows};
ghost use Rattle.image.specs.Layout.{line_widths, standing_widths, standing_rows_at, image_length};
ghost use Rattle.image.specs.Image.{head_bytes, line_bytes, standing_bytes, image_with, line_from, standing_from, line_in, holder_in, state_in};
ghost use Rattle.image.specs.Sound.{counts_fit};
ghost use Rattle.image.specs.Inner.{line_width, standing_width, holder_test, fit_test, holder_key, holder_table};
ghost use Rattle.image.specs.Inner.{Lent, LineRoom, StandingRoom, LentRow, Storing, TakesRows, PutsRows};

use machine_state::{LineRow, Standing, State};

// The first bytes, and the rows of a resource and of a task.
const HEAD: usize = 4;

const LINE_ROW: usize = 14;

const STANDING_ROW: usize = 2;

// A size as a byte.
const RESOURCES: u8 = sizes::RESOURCES as u8;

// Where the task rows of a plan's image begin.
fn standing_rows_at(file: &[u8]) -> usize
    requires { Checked file.now }
    ensures { result ≡ standing_rows_at (plan_of file.now) }
{
    let counts = plan_reading::checked::counts(file);
    HEAD + usize::from(counts.resources) * LINE_ROW
}

// The length of a plan's image.
pub fn image_length(file: &[u8]) -> usize
    requires { Checked file.now }
    ensures { result ≡ image_length (plan_of file.now) }
{
    let counts = plan_reading::checked::counts(file);
    standing_rows_at(file) + usize::from(counts.tasks) * STANDING_ROW
}

// The resource row at the front of a part.
#[tactic(auto, unfolding(folds::specs::Bytes::fields, folds::specs::Bytes::number))]
fn get_line(part: &[u8]) -> LineRow
    requires { line_width ≤ length part.now }
    ensures { result ≡ line_from (fields line_widths part.now 0) }
{
    let mut queue = [0; sizes::PROCESSORS];
    queue.copy_from_slice(&part[6..LINE_ROW]);
    LineRow {
        queued: part[0],
        queue,
        hold_left: u16::from_le_bytes([part[2], part[3]]),
        budget_left: u16::from_le_bytes([part[4], part[5]]),
    }
}

// The task row at the front of a part.
#[tactic(auto, unfolding(folds::specs::Bytes::fields, folds::specs::Bytes::number))]
fn get_standing(part: &[u8]) -> Standing
    requires { standing_width ≤ length part.now }
    ensures { result ≡ standing_from (fields standing_widths part.now 0) }
{
    Standing {
        resource: part[0],
        place: part[1],
    }
}

// The row of resource q in an image.
#[tactic(auto, using(crate::proofs::Rows::row_part), unfolding(crate::specs::Image::line_in))]
fn line_at(image: &[u8], q: usize) -> LineRow
    requires { LineRoom q image.now }
    ensures { result ≡ line_in image.now q }
{
    get_line(&image[HEAD + q * LINE_ROW..])
}

// The holder's number in it.
#[tactic(auto, unfolding(crate::specs::Image::holder_in, folds::specs::Bytes::row_at, folds::specs::Bytes::fields, folds::specs::Bytes::number))]
fn holder_at(image: &[u8], q: usize) -> u8
    requires { LineRoom q image.now }
    ensures { result ≡ holder_in image.now q }
{
    image[HEAD + q * LINE_ROW + 1]
}

// The row of task i, where these begin at `from`.
#[tactic(auto, using(crate::proofs::Rows::row_part))]
fn standing_at(image: &[u8], from: usize, i: usize) -> Standing
    requires { StandingRoom from i image.now }
    ensures { result ≡ standing_from (row_at standing_widths (drop from image.now) i) }
{
    get_standing(&image[from + i * STANDING_ROW..])
}

// The state that an image shows.
pub fn load(file: &[u8], image: &[u8]) -> State
    requires { Lent file.now image.now }
    ensures { result ≡ state_in (plan_of file.now) image.now }
{
    let counts = plan_reading::checked::counts(file);
    let at = standing_rows_at(file);
    State {
        lines: folds::table(
            usize::from(counts.resources),
            machine_state::free(),
            |q| line_at(image, q),
        ),
        tasks: folds::table(
            usize::from(counts.tasks),
            machine_state::idle(),
            |i| standing_at(image, at, i),
        ),
    }
}

// The first four bytes.
#[tactic(auto, using(crate::proofs::Ground::valid_plan), unfolding(crate::specs::Image::head_bytes, folds::specs::Bytes::row_bytes, folds::specs::Bytes::digits))]
fn head(file: &[u8]) -> [u8; HEAD]
    requires { Checked file.now }
    ensures { result ≡ head_bytes (plan_of file.now) }
{
    let counts = plan_reading::checked::counts(file);
    let at = standing_rows_at(file);
    [counts.tasks, counts.resources, HEAD as u8, at as u8]
}

// Whether the counts and offsets of an image fit the plan.
#[tactic(auto, unfolding(crate::specs::Sound::counts_fit, crate::specs::Image::head_bytes, folds::specs::Bytes::row_bytes, folds::specs::Bytes::digits))]
fn counts_ok(file: &[u8], image: &[u8]) -> bool
    requires { Lent file.now image.now }
    ensures { result ≡ counts_fit (plan_of file.now) image.now }
{
    image[..HEAD] == head(file)[..]
}

// Whether the holder's number in the row of resource q is that of a first task of the head, or none where the resource is free.
#[tactic(auto, using(crate::proofs::Ground::valid_plan, crate::proofs::Tested::free_test_lem, crate::proofs::Tested::past_test, crate::proofs::Tested::first_test), unfolding(crate::specs::Image::standing_in))]
fn holder_ok(file: &[u8], image: &[u8], q: usize) -> bool
    requires { LentRow file.now image.now q }
    ensures { result ≡ holder_test (plan_of file.now) image.now q }
{
    let line = line_at(image, q);
    let holder = holder_at(image, q);
    if line.queued == 0 {
        return holder == sizes::ABSENT;
    }
    let counts = plan_reading::checked::counts(file);
    if counts.tasks <= holder {
        return false;
    }
    let i = usize::from(holder);
    let task = plan_reading::checked::task(file, i);
    let s = standing_at(image, standing_rows_at(file), i);
    (usize::from(s.resource) == q) & (s.place == 0) & (task.processor == line.queue[0])
}

// Whether all are.
#[tactic(auto, unfolding(folds::specs::Below::all_below))]
fn holders_ok(file: &[u8], image: &[u8]) -> bool
    requires { Lent file.now image.now }
    ensures { result ≡ all_below (plan_of file.now).resources (holder_test (plan_of file.now) image.now) }
{
    let counts = plan_reading::checked::counts(file);
    (0..usize::from(counts.resources)).all(|q| holder_ok(file, image, q))
}

// Whether an image is as it must be, beside the state that it shows.
#[tactic(auto, unfolding(crate::specs::Inner::fit_test))]
pub fn fits(file: &[u8], image: &[u8]) -> bool
    requires { Lent file.now image.now }
    ensures { result ≡ fit_test (plan_of file.now) image.now }
{
    counts_ok(file, image) && holders_ok(file, image)
}

// The bytes of a resource row, with the holder's number.
#[tactic(auto, unfolding(crate::specs::Image::line_bytes, folds::specs::Bytes::row_bytes, folds::specs::Bytes::digits, queue_ranks::specs::Ranks::list_from))]
fn line_bytes(line: LineRow, holder: u8) -> [u8; LINE_ROW]
    ensures { result ≡ line_bytes line holder }
{
    let [hold_low, hold_high] = line.hold_left.to_le_bytes();
    let [budget_low, budget_high] = line.budget_left.to_le_bytes();
    let [q0, q1, q2, q3, q4, q5, q6, q7] = line.queue;
    [
        line.queued,
        holder,
        hold_low,
        hold_high,
        budget_low,
        budget_high,
        q0,
        q1,
        q2,
        q3,
        q4,
        q5,
        q6,
        q7,
    ]
}

// The bytes of a task row.
#[tactic(auto, unfolding(crate::specs::Image::standing_bytes, folds::specs::Bytes::row_bytes, folds::specs::Bytes::digits))]
fn standing_bytes(s: Standing) -> [u8; STANDING_ROW]
    ensures { result ≡ standing_bytes s }
{
    [s.resource, s.place]
}

// The rows below n, each of this width, at the front of the buffer.
fn put_rows<F: Fn(usize, &mut [u8])>(buf: &mut [u8], n: usize, width: usize, put: F)
    requires room { n * width ≤ length buf.old }
    requires calls { TakesRows (F.pre put) n width }
    ensures { (f : ℕ → List ℕ) → PutsRows (F.post put) n width f → buf.new ≡ bytes_below n f ++ drop (n * width) buf.old }
{
    for i in 0..n {
        put(i, &mut buf[i * width..(i + 1) * width]);
    }
}

// Where a task of a processor with this row is put into the table of holders, with the row of the resource that it names.
#[tactic(auto, unfolding(crate::specs::Inner::holder_key))]
fn holder_key(s: Standing, line: LineRow, processor: u8) -> usize
    ensures { (result ≡ holder_key s line processor) × (result ≤ most_resources) }
{
    if (s.resource < RESOURCES) & (s.place == 0) & (line.queue[0] == processor) {
        usize::from(s.resource)
    } else {
        sizes::RESOURCES
    }
}

// Who holds which resource; the last of the table is nobody's.
#[tactic(auto, using(crate::proofs::Ground::valid_plan, folds::proofs::Arrays::stamped_step), unfolding(folds::proofs::Arrays::stamped_below, crate::specs::Inner::holder_table))]
fn holders_of(file: &[u8], state: &State) -> [u8; sizes::RESOURCES + 1]
    requires { Checked file.now }
    ensures { result ≡ holder_table (plan_of file.now) state.now }
{
    let counts = plan_reading::checked::counts(file);
    let mut holders = [sizes::ABSENT; sizes::RESOURCES + 1];
    for u in 0..counts.tasks {
        let s = state.tasks[usize::from(u)];
        let line = state.lines[usize::from(s.resource) % sizes::RESOURCES];
        let task = plan_reading::checked::task(file, usize::from(u));
        holders[holder_key(s, line, task.processor)] = u;
    }
    holders
}

// Puts the image of a sound state at the front of the lent bytes; what lies behind stays.
pub fn store(file: &[u8], image: &mut [u8], state: State)
    requires { Storing file.now image.old state }
    ensures image_after { image.new ≡ image_with (plan_of file.now) (shows (plan_of file.now) state) image.old }
    ensures lines_len { (length state.lines ≡ most_resources) × (length state.tasks ≡ most_tasks) }
{
    let counts = plan_reading::checked::counts(file);
    let at = standing_rows_at(file);
    let holders = holders_of(file, &state);
    image[..HEAD].copy_from_slice(&head(file));
    put_rows(
        &mut image[HEAD..],
        usize::from(counts.resources),
        LINE_ROW,
        |q, row| row.copy_from_slice(&line_bytes(state.lines[q], holders[q])),
    );
    put_rows(
        &mut image[at..],
        usize::from(counts.tasks),
        STANDING_ROW,
        |i, row| row.copy_from_slice(&standing_bytes(state.tasks[i])),
    );
}
