// The lines of the printing programs, put into a lent buffer from a place on; each function returns where its text ends. They are for
// the crates above this one: each says in its `requires` how much room it takes. The line of a refusal, which both programs print, is
// there for any buffer too.
#![tactic(auto)]

ghost use Rattle.std.specs.Prelude.{◌≡◌, cond, [], ◌+◌, ◌≤◌, length};
ghost use Rattle.print_text.specs.Text.{PutIn};
ghost use Rattle.print_text.specs.Buffers.{handed_code, buffer_with};
ghost use Rattle.refusals.specs.Refusals.{Told};
ghost use Rattle.print_lines.specs.declared.Field.TheVariants.{Number, Signed, Name, Says};
ghost use Rattle.print_lines.specs.Lines.{most_line, refused_line, plan_line, answer_line};
ghost use Rattle.print_lines.specs.Inner.{Names, word_text, value_text, field_text, fields_text, four_fields};
ghost use Rattle.print_lines.specs.Inner.{value_room, room_of, rooms_of, line_room, Asking, AllNamed, FieldFits, FieldsFit, LinePut};

use machine_rules::Answer;
use plan_rules::Counts;
use refusals::Refusal;

// A word in a line.
#[derive(Clone, Copy)]
pub enum Word {
    To,
    Free,
    Global,
    Local,
    Met,
    Unmet,
    Yes,
    No,
}

// A field of a line; the name is that of a resource.
#[derive(Clone, Copy)]
pub enum Field {
    Number(u64),
    Signed(i64),
    Name(u8),
    Says(Word),
    None,
}

// The most fields of a line.
pub const FIELDS: usize = 8;

// No field more.
pub const NONE: Field = Field::None;

// A buffer as long as this has room for every line of an answer, a plan or a refusal.
pub const LINE: usize = 96;

// One of two words.
pub fn either(first: bool, yes: Word, no: Word) -> Field
    ensures { result ≡ Says (cond first yes no) }
{
    Field::Says(if first { yes } else { no })
}

// What a word says.
fn said(word: Word) -> &'static [u8]
    ensures { result.now ≡ word_text word }
{
    match word {
        Word::To => b"to",
        Word::Free => b"free",
        Word::Global => b"global",
        Word::Local => b"local",
        Word::Met => b"met",
        Word::Unmet => b"unmet",
        Word::Yes => b"yes",
        Word::No => b"no",
    }
}

// A field without the space before it.
fn put_value(buf: &mut [u8], at: usize, file: &[u8], field: Field) -> usize
    requires named { Asking file.now field (Unit {0}) }
    requires room { at + value_room field ≤ length buf.old }
    ensures { PutIn buf.old buf.new at (value_room field) (value_text file.now field) result }
{
    match field {
        Field::Number(n) => print_text::put_decimal(buf, at, n),
        Field::Signed(z) => print_text::put_signed(buf, at, z),
        Field::Name(resource) => {
            print_text::put(buf, at, plan_reading::checked::name(file, resource))
        }
        Field::Says(word) => print_text::put(buf, at, said(word)),
        Field::None => at,
    }
}

// A field, after a space.
#[tactic(auto, using(crate::proofs::Fields::spaced_room))]
fn put_field(buf: &mut [u8], at: usize, file: &[u8], field: Field) -> usize
    requires { FieldFits file.now buf.old at field }
    ensures { PutIn buf.old buf.new at (room_of field) (field_text file.now field) result }
{
    if let Field::None = field {
        return at;
    }
    let start = print_text::put(buf, at, b" ");
    put_value(buf, start, file, field)
}

// One field behind the other.
#[tactic(auto, using(crate::proofs::Fields::left_more))]
fn put_fields(buf: &mut [u8], at: usize, file: &[u8], fields: [Field; FIELDS]) -> usize
    requires { FieldsFit file.now buf.old at fields }
    ensures { PutIn buf.old buf.new at (rooms_of fields) (fields_text file.now fields) result }
{
    let mut end = at;
    for field in &fields {
        end = put_field(buf, end, file, *field);
    }
    end
}

// A line: its word and its fields.
pub fn put_line(
    buf: &mut [u8],
    at: usize,
    file: &[u8],
    word: &[u8],
    fields: [Field; FIELDS],
) -> usize
    requires { (AllNamed file.now fields) × (at + line_room word.now fields ≤ length buf.old) }
    ensures { LinePut buf.old buf.new at file.now word.now fields result }
{
    let a = print_text::put(buf, at, word);
    let b = put_fields(buf, a, file, fields);
    print_text::put(buf, b, b"\n")
}

// The fields of a line that has at most four.
pub fn four(a: Field, b: Field, c: Field, d: Field) -> [Field; FIELDS]
    ensures { result ≡ four_fields a b c d }
{
    [a, b, c, d, NONE, NONE, NONE, NONE]
}

// "refused N".
pub fn put_refused(buf: &mut [u8], at: usize, number: u8) -> usize
    requires { at + most_line ≤ length buf.old }
    ensures { PutIn buf.old buf.new at most_line (refused_line number) result }
{
    let code = Field::Number(u64::from(number));
    put_line(buf, at, b"", b"refused", four(code, NONE, NONE, NONE))
}

// That line alone, at the front of a lent buffer.
pub fn refused_line(number: u8, out: &mut [u8]) -> Result<usize, Refusal>
    ensures told { Told (handed_code (refused_line number) (length out.old)) (length (refused_line number)) result }
    ensures out_after { out.new ≡ buffer_with (refused_line number) out.old }
{
    let mut line = [0u8; LINE];
    let end = put_refused(&mut line, 0, number);
    print_text::hand_over(&line[..end], out)
}

// "plan P N R S".
pub fn put_plan(buf: &mut [u8], at: usize, counts: Counts) -> usize
    requires { at + most_line ≤ length buf.old }
    ensures { PutIn buf.old buf.new at most_line (plan_line counts) result }
{
    let p = Field::Number(u64::from(counts.processors));
    let n = Field::Number(u64::from(counts.tasks));
    let r = Field::Number(u64::from(counts.resources));
    let s = Field::Number(u64::from(counts.sections));
    put_line(buf, at, b"", b"plan", four(p, n, r, s))
}

// The line of an answer.
pub fn put_answer(
    buf: &mut [u8],
    at: usize,
    file: &[u8],
    tag: u16,
    resource: u8,
    answer: Answer,
) -> usize
    requires { (Names file.now resource answer) × (at + most_line ≤ length buf.old) }
    ensures { PutIn buf.old buf.new at most_line (answer_line file.now tag resource answer) result }
{
    let tag = Field::Number(u64::from(tag));
    let name = Field::Name(resource);
    match answer {
        Answer::Granted => put_line(buf, at, file, b"granted", four(tag, name, NONE, NONE)),
        Answer::Waits(ahead, most) => {
            let ahead = Field::Number(u64::from(ahead));
            let limit = Field::Number(u64::from(most));
            put_line(buf, at, file, b"waits", four(tag, name, ahead, limit))
        }
        Answer::Next(next) => {
            let to = Field::Says(Word::To);
            let next = Field::Number(u64::from(next));
            put_line(buf, at, file, b"released", four(tag, name, to, next))
        }
        Answer::Free => {
            let free = Field::Says(Word::Free);
            put_line(buf, at, file, b"released", four(tag, name, free, NONE))
        }
        Answer::Left => put_line(buf, at, file, b"left", four(tag, name, NONE, NONE)),
        Answer::Ticked(cuts, grants) => {
            let cuts = Field::Number(u64::from(cuts));
            let grants = Field::Number(u64::from(grants));
            put_line(buf, at, file, b"tick", four(cuts, grants, NONE, NONE))
        }
        Answer::Refused(code) => put_refused(buf, at, code),
    }
}
