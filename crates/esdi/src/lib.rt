// What C calls: the record and the file lent, the answer as a number.
// Stays: the C interface. Events, slots, words, answers and refusals are numbers here, and what is lent, singly, is written in place.
#![tactic(auto)]

ghost use Rattle.std.specs.Prelude.{◌≡◌, length};
ghost use Rattle.pack_lay.specs.Lay.{laid_number, laid_answer, laid_bytes};
ghost use Rattle.c_pack.specs.Fit.{lent_fit};
ghost use Rattle.c_pack.specs.FilePacks.{packs_of, pack_at_slot};
ghost use Rattle.c_word.specs.Words.{slot_word};
ghost use Rattle.c_capture.specs.Capture.{lent_capture, capture_count};
ghost use Rattle.capture_run.specs.Captured.{captured_file, captured_answers};
ghost use Rattle.c_layout.specs.Marks.{marked_chain};
ghost use Rattle.chain_step.specs.Step.{step_of, step_file};
ghost use Rattle.esdi.specs.Call.{answer_code, lines_code};

use chain_record::Chain;
use event::Answer;
use pack_profile::Profile;
use pack_read::Pack;

// The answer's number in the low byte, its value in the next.
fn answer_code(answer: Answer) -> u32
    ensures { result ≡ answer_code answer }
{
    event::numbers::number(answer) as u32 + event::numbers::value(answer) as u32 * 256
}

// What the selected drive shows, in the second byte; or that the record is malformed.
#[tactic(auto, unfolding(crate::specs::Call::lines_code))]
fn lines_code(c: Chain) -> u32
    ensures { result ≡ lines_code c }
{
    if !chain_sound::is_sound(c) {
        return event::numbers::number(Answer::Malformed) as u32;
    }
    chain_decide::shown::line_sum(c) as u32 * 256
}

// An event on the lent record and file. A decision is small: the record is copied in and stored back once.
#[tactic(auto, unfolding(chain_step::specs::Step::perform_of, chain_step::specs::Step::step_of))]
#[unsafe(no_mangle)]
pub extern "C" fn esdi_event<'a, 'b>(
    c: &'a mut Chain,
    file: &'b mut [u8],
    kind: u32,
    a: u32,
    b: u32,
) -> u32
    ensures { (c.new ≡ (step_of kind a b c.old file.old).chain)
        × ((result ≡ answer_code (step_of kind a b c.old file.old).answer) × (file.new ≡ step_file kind a b c.old file.old)) }
{
    let old = *c;
    let performed = chain_step::perform(old, file, kind, a, b);
    *c = chain_apply::apply(old, performed.decision);
    answer_code(performed.answer)
}

// A chain fitted from a pack file into the lent record.
#[unsafe(no_mangle)]
pub extern "C" fn esdi_fit<'a, 'b>(c: &'a mut Chain, file: &'b [u8]) -> u64
    ensures { (c.new ≡ (lent_fit c.old file.now).lent) × (result ≡ (lent_fit c.old file.now).code) }
{
    let old = *c;
    let fitted = c_pack::fit::fit(old, file);
    *c = fitted.lent;
    fitted.code
}

// A capture on the lent record and file, an answer of two bytes for each of its events into the lent answers.
#[unsafe(no_mangle)]
pub extern "C" fn esdi_capture<'a, 'b, 'c, 'd>(
    c: &'a mut Chain,
    file: &'b mut [u8],
    capture: &'c [u8],
    answers: &'d mut [u8],
) -> u64
    ensures { (c.new ≡ (lent_capture c.old file.old capture.now (length answers.old)).lent)
        × ((result ≡ (lent_capture c.old file.old capture.now (length answers.old)).code)
        × ((file.new ≡ captured_file c.old file.old capture.now (length answers.old))
        × (answers.new ≡ captured_answers c.old file.old capture.now answers.old))) }
{
    let old = *c;
    let ran = c_capture::capture(old, file, capture, answers);
    *c = ran.lent;
    ran.code
}

// How many answers a capture on the lent record will have.
#[unsafe(no_mangle)]
pub extern "C" fn esdi_capture_count<'a, 'b>(c: &'a Chain, capture: &'b [u8]) -> u64
    ensures { result ≡ capture_count c.now capture.now }
{
    let old = *c;
    c_capture::count(old, capture)
}

// A word to a slot of the lent record.
#[unsafe(no_mangle)]
pub extern "C" fn esdi_word(c: &mut Chain, slot: u32, word: u32) -> u64
    ensures { (c.new ≡ (slot_word c.old slot word).lent) × (result ≡ (slot_word c.old slot word).code) }
{
    let old = *c;
    let sent = c_word::word(old, slot, word);
    *c = sent.lent;
    sent.code
}

// What the selected drive of the lent record shows.
#[unsafe(no_mangle)]
pub extern "C" fn esdi_lines(c: &Chain) -> u32
    ensures { result ≡ lines_code c.now }
{
    let old = *c;
    lines_code(old)
}

// The lent record filled with marks.
#[unsafe(no_mangle)]
pub extern "C" fn esdi_marks(c: &mut Chain)
    ensures { c.new ≡ marked_chain }
{
    *c = c_layout::marked();
}

// The status of a pack file.
#[unsafe(no_mangle)]
pub extern "C" fn esdi_packs(file: &[u8]) -> u64
    ensures { result ≡ packs_of file.now }
{
    c_pack::packs::packs(file)
}

// The pack in a slot of a pack file, into the lent one.
#[unsafe(no_mangle)]
pub extern "C" fn esdi_pack_at<'a, 'b>(pack: &'a mut Pack, file: &'b [u8], slot: u32) -> u64
    ensures { (pack.new ≡ (pack_at_slot pack.old file.now slot).lent)
        × (result ≡ (pack_at_slot pack.old file.now slot).code) }
{
    let old = *pack;
    let found = c_pack::packs::pack_at(old, file, slot);
    *pack = found.lent;
    found.code
}

// A pack of the lent profile laid at the start of the lent part.
#[unsafe(no_mangle)]
pub extern "C" fn esdi_lay<'a, 'b>(part: &'a mut [u8], p: &'b Profile) -> u32
    ensures { (result ≡ laid_number (laid_answer p.now (length part.old))) × (part.new ≡ laid_bytes p.now part.old) }
{
    let profile = *p;
    c_pack::packs::laid(profile, part)
}
