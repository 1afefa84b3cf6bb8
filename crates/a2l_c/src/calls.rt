//! The functions that C calls. Each takes the session out of its handle, works, and puts it back.
//!
//! What a caller in C owes, since nothing checks it there: handles are set to zero before the first
//! call and are left to these functions (`IsValid`), one call at a time uses a handle, and the
//! bytes of a file stay until the last handle over it is closed. Numbers of `Status` are what the
//! calls return.

ghost use Rattle.std.specs.Prelude.{◌≡◌, ◌⊎◌, ◌≢◌, ◌↔◌, [], ◌∷◌, true, false, None, map};
ghost use Rattle.dw_model.specs.Answer.{answer, location};
ghost use Rattle.dw_model.specs.Pieces.{pieces};
ghost use Rattle.dw_model.specs.Refusal.{refusal};
ghost use Rattle.a2l_c.specs.Question.{answers_to};
ghost use Rattle.a2l_c.specs.Structs.{IsCopied, IsTooLong};
ghost use Rattle.a2l_c.specs.Answers.{ReportsAnswer, LacksAnswer, ReportsFrame, LacksFrame, ReportsPiece, LacksPiece};
ghost use Rattle.a2l_c.specs.Calls.{IsValid, Holds, HoldsSuch, HasAnswers, MayOpenBeside, Stays, Answers, answering};
ghost use Rattle.a2l_c.specs.Calls.{TellsRefusal};

use crate::handle::Handle;
use crate::lookup::{answer_at, frame_at, piece_at};
use crate::question::Question;
use crate::session::Session;
use crate::status::Status;
use crate::structs::{CAnswer, CFrame, CHandle, CPiece, CRefusal, tell_refusal};
use dw_elf::OpenFault;
use std::alloc::Global;
use std::num::NonZeroUsize;

/// Puts a new session into a handle that is closed.
fn keep(alloc: Global, session: Session, handle: &mut CHandle) -> Status
    requires closed { handle.old.open ≡ false }
    ensures held { result ≡ Status.Done → Holds handle.new session }
    ensures stays { result ≡ Status.Memory → handle.new ≡ handle.old }
    ensures ends { (result ≡ Status.Done) ⊎ (result ≡ Status.Memory) }
{
    let Ok(session) = Box::new(alloc, session) else {
        return Status::Memory;
    };
    handle.handle = Handle::empty(alloc);
    handle.handle.put(session);
    handle.open = true;
    Status::Done
}

/// Opens a file, for a handle that is closed.
fn open(
    alloc: Global,
    file: &'static [u8],
    capacity: NonZeroUsize,
    handle: &mut CHandle,
    why: &mut CRefusal<'static>,
) -> Status
    requires closed { handle.old.open ≡ false }
    ensures opened { result ≡ Status.Done → Holds handle.new (record { file = file.now; answers = [] }) }
    ensures accepted { result ≡ Status.Done → refusal file.now ≡ None }
    ensures refused { result ≡ Status.Refused → TellsRefusal (refusal file.now) why.new }
    ensures unfilled { result ≢ Status.Refused → why.new ≡ why.old }
    ensures stays { result ≢ Status.Done → handle.new ≡ handle.old }
    ensures ends { (result ≡ Status.Done) ⊎ ((result ≡ Status.Memory) ⊎ (result ≡ Status.Refused)) }
{
    match Session::open(alloc, file, capacity) {
        Ok(session) => keep(alloc, session, handle),
        Err(OpenFault::Memory) => Status::Memory,
        Err(fault) => {
            tell_refusal(&fault, why);
            Status::Refused
        }
    }
}

/// Opens a file by its bytes.
#[unsafe(no_mangle)]
pub extern "C" fn a2l_open(
    alloc: Global,
    file: &'static [u8],
    capacity: usize,
    handle: &mut CHandle,
    why: &mut CRefusal<'static>,
) -> u32
    requires valid { IsValid handle.old }
    ensures valid { IsValid handle.new }
    ensures opened { result ≡ 0 → Holds handle.new (record { file = file.now; answers = [] }) }
    ensures accepted { result ≡ 0 → refusal file.now ≡ None }
    ensures refused { result ≡ 2 → TellsRefusal (refusal file.now) why.new }
    ensures unfilled { result ≢ 2 → why.new ≡ why.old }
    ensures capacity { (result ≡ 3) ↔ ((handle.old.open ≡ false) × (capacity ≡ 0)) }
    ensures open { (result ≡ 5) ↔ (handle.old.open ≡ true) }
    ensures stays { result ≢ 0 → handle.new ≡ handle.old }
    ensures ends { (result ≡ 0) ⊎ ((result ≡ 1) ⊎ ((result ≡ 2) ⊎ ((result ≡ 3) ⊎ (result ≡ 5)))) }
{
    if handle.open {
        return Status::Open.number();
    }
    let Some(capacity) = NonZeroUsize::new(capacity) else {
        return Status::Capacity.number();
    };
    open(alloc, file, capacity, handle, why).number()
}

/// Opens a second handle over the file of a first one.
#[unsafe(no_mangle)]
pub extern "C" fn a2l_beside(
    alloc: Global,
    handle: &mut CHandle,
    capacity: usize,
    other: &mut CHandle,
) -> u32
    requires valid { IsValid handle.old }
    requires other { IsValid other.old }
    ensures valid { IsValid handle.new }
    ensures other { IsValid other.new }
    ensures opened { result ≡ 0 → HoldsSuch handle.old (λ session. Holds other.new (answering (λ _. []) session)) }
    ensures stays { Stays handle.old handle.new }
    ensures unopened { result ≢ 0 → other.new ≡ other.old }
    ensures closed { (result ≡ 4) ↔ (handle.old.open ≡ false) }
    ensures open { (result ≡ 5) ↔ ((handle.old.open ≡ true) × (other.old.open ≡ true)) }
    ensures capacity { (result ≡ 3) ↔ (MayOpenBeside handle.old other.old × (capacity ≡ 0)) }
    ensures ends { (result ≡ 0) ⊎ ((result ≡ 1) ⊎ ((result ≡ 3) ⊎ ((result ≡ 4) ⊎ (result ≡ 5)))) }
{
    if !handle.open {
        return Status::Closed.number();
    }
    if other.open {
        return Status::Open.number();
    }
    let Some(capacity) = NonZeroUsize::new(capacity) else {
        return Status::Capacity.number();
    };
    let session = handle.handle.take(alloc);
    let made = session.beside(capacity);
    handle.handle.put(session);
    match made {
        Ok(beside) => keep(alloc, beside, other).number(),
        Err(_) => Status::Memory.number(),
    }
}

/// Closes a handle.
#[unsafe(no_mangle)]
pub extern "C" fn a2l_close(alloc: Global, handle: &mut CHandle) -> u32
    requires valid { IsValid handle.old }
    ensures closed { handle.new.open ≡ false }
    ensures empty { result ≡ 0 → handle.new.handle.session ≡ None }
    ensures stays { result ≡ 4 → handle.new ≡ handle.old }
    ensures done { (result ≡ 0) ↔ (handle.old.open ≡ true) }
    ensures ends { (result ≡ 0) ⊎ (result ≡ 4) }
{
    if !handle.open {
        return Status::Closed.number();
    }
    drop(handle.handle.take(alloc));
    handle.open = false;
    Status::Done.number()
}

/// Asks a question of a handle, which has the answers then.
fn ask(alloc: Global, handle: &mut CHandle, question: Question<'_>) -> Status
    requires valid { IsValid handle.old }
    ensures valid { IsValid handle.new }
    ensures found { result ≡ Status.Done → Answers (answers_to question.entry) handle.old handle.new }
    ensures stays { result ≢ Status.Done → Stays handle.old handle.new }
    ensures closed { (result ≡ Status.Closed) ↔ (handle.old.open ≡ false) }
    ensures ends { (result ≡ Status.Done) ⊎ ((result ≡ Status.Memory) ⊎ (result ≡ Status.Closed)) }
{
    if !handle.open {
        return Status::Closed;
    }
    let mut session = handle.handle.take(alloc);
    let asked = session.ask(question);
    handle.handle.put(session);
    match asked {
        Ok(()) => Status::Done,
        Err(_) => Status::Memory,
    }
}

/// Asks what addresses mean.
#[unsafe(no_mangle)]
pub extern "C" fn a2l_find_frames(alloc: Global, handle: &mut CHandle, addresses: &[u64]) -> u32
    requires valid { IsValid handle.old }
    ensures valid { IsValid handle.new }
    ensures found { result ≡ 0 → Answers (λ file. map (answer file) addresses.now) handle.old handle.new }
    ensures stays { result ≢ 0 → Stays handle.old handle.new }
    ensures closed { (result ≡ 4) ↔ (handle.old.open ≡ false) }
    ensures ends { (result ≡ 0) ⊎ ((result ≡ 1) ⊎ (result ≡ 4)) }
{
    ask(alloc, handle, Question::Frames(addresses)).number()
}

/// Asks where addresses come from, by line tables alone.
#[unsafe(no_mangle)]
pub extern "C" fn a2l_find_locations(alloc: Global, handle: &mut CHandle, addresses: &[u64]) -> u32
    requires valid { IsValid handle.old }
    ensures valid { IsValid handle.new }
    ensures found { result ≡ 0 → Answers (λ file. map (location file) addresses.now) handle.old handle.new }
    ensures stays { result ≢ 0 → Stays handle.old handle.new }
    ensures closed { (result ≡ 4) ↔ (handle.old.open ≡ false) }
    ensures ends { (result ≡ 0) ⊎ ((result ≡ 1) ⊎ (result ≡ 4)) }
{
    ask(alloc, handle, Question::Locations(addresses)).number()
}

/// Asks for the pieces of a span.
#[unsafe(no_mangle)]
pub extern "C" fn a2l_find_pieces(alloc: Global, handle: &mut CHandle, low: u64, high: u64) -> u32
    requires valid { IsValid handle.old }
    ensures valid { IsValid handle.new }
    ensures found { result ≡ 0 → Answers (λ file. pieces file low high ∷ []) handle.old handle.new }
    ensures stays { result ≢ 0 → Stays handle.old handle.new }
    ensures closed { (result ≡ 4) ↔ (handle.old.open ≡ false) }
    ensures ends { (result ≡ 0) ⊎ ((result ≡ 1) ⊎ (result ≡ 4)) }
{
    ask(alloc, handle, Question::Pieces { low, high }).number()
}

/// Fills in what the answer at an index is.
#[unsafe(no_mangle)]
pub extern "C" fn a2l_answer_at(
    alloc: Global,
    handle: &mut CHandle,
    i: usize,
    told: &mut CAnswer,
) -> u32
    requires valid { IsValid handle.old }
    ensures valid { IsValid handle.new }
    ensures told { result ≡ 0 → HasAnswers handle.old (ReportsAnswer i told.new) }
    ensures outside { result ≡ 6 → HasAnswers handle.old (LacksAnswer i) }
    ensures unfilled { result ≢ 0 → told.new ≡ told.old }
    ensures stays { Stays handle.old handle.new }
    ensures closed { (result ≡ 4) ↔ (handle.old.open ≡ false) }
    ensures ends { (result ≡ 0) ⊎ ((result ≡ 4) ⊎ (result ≡ 6)) }
{
    if !handle.open {
        return Status::Closed.number();
    }
    let session = handle.handle.take(alloc);
    let status = answer_at(session.answers(), i, told);
    handle.handle.put(session);
    status.number()
}

/// Fills in a frame of an answer.
#[unsafe(no_mangle)]
pub extern "C" fn a2l_frame_at(
    alloc: Global,
    handle: &mut CHandle,
    i: usize,
    j: usize,
    buffer: &mut [u8],
    told: &mut CFrame<'static>,
) -> u32
    requires valid { IsValid handle.old }
    ensures valid { IsValid handle.new }
    ensures told { result ≡ 0 → HasAnswers handle.old (ReportsFrame i j told.new (IsCopied buffer.old buffer.new)) }
    ensures short { result ≡ 7 → HasAnswers handle.old (ReportsFrame i j told.new (IsTooLong buffer.old)) }
    ensures outside { result ≡ 6 → HasAnswers handle.old (LacksFrame i j) }
    ensures unfilled { (result ≡ 4) ⊎ (result ≡ 6) → told.new ≡ told.old }
    ensures uncopied { result ≢ 0 → buffer.new ≡ buffer.old }
    ensures stays { Stays handle.old handle.new }
    ensures closed { (result ≡ 4) ↔ (handle.old.open ≡ false) }
    ensures ends { (result ≡ 0) ⊎ ((result ≡ 4) ⊎ ((result ≡ 6) ⊎ (result ≡ 7))) }
{
    if !handle.open {
        return Status::Closed.number();
    }
    let session = handle.handle.take(alloc);
    let status = frame_at(session.answers(), i, j, buffer, told);
    handle.handle.put(session);
    status.number()
}

/// Fills in a piece of a span.
#[unsafe(no_mangle)]
pub extern "C" fn a2l_piece_at(
    alloc: Global,
    handle: &mut CHandle,
    j: usize,
    buffer: &mut [u8],
    told: &mut CPiece,
) -> u32
    requires valid { IsValid handle.old }
    ensures valid { IsValid handle.new }
    ensures told { result ≡ 0 → HasAnswers handle.old (ReportsPiece j told.new (IsCopied buffer.old buffer.new)) }
    ensures short { result ≡ 7 → HasAnswers handle.old (ReportsPiece j told.new (IsTooLong buffer.old)) }
    ensures outside { result ≡ 6 → HasAnswers handle.old (LacksPiece j) }
    ensures unfilled { (result ≡ 4) ⊎ (result ≡ 6) → told.new ≡ told.old }
    ensures uncopied { result ≢ 0 → buffer.new ≡ buffer.old }
    ensures stays { Stays handle.old handle.new }
    ensures closed { (result ≡ 4) ↔ (handle.old.open ≡ false) }
    ensures ends { (result ≡ 0) ⊎ ((result ≡ 4) ⊎ ((result ≡ 6) ⊎ (result ≡ 7))) }
{
    if !handle.open {
        return Status::Closed.number();
    }
    let session = handle.handle.take(alloc);
    let status = piece_at(session.answers(), j, buffer, told);
    handle.handle.put(session);
    status.number()
}

/// The version of the interface: 65536 times the first number, 256 times the second, and the third.
#[unsafe(no_mangle)]
pub extern "C" fn a2l_version() -> u32
    ensures { result ≡ 256 }
{
    0x0000_0100
}
