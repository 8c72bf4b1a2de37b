// Reading a recording and judging its run.
ghost use Rattle.std.specs.Prelude.{◌≡◌, ◌<◌, [], length, MatchResult};
ghost use Rattle.std.specs.Option.{ok_or};
ghost use Rattle.refusal.specs.declared.Refusal.TheVariants.{RecordOutOfPlace};
ghost use Rattle.program.specs.Programs.{lines_of};
ghost use Rattle.present.specs.Data.{fresh_held};
ghost use Rattle.replay.specs.Views.{has_bit, held};
ghost use Rattle.recording.specs.Meaning.{chosen_by, kind_rules, move_of, reading, rules_of};
ghost use Rattle.recording.specs.Steps.{Adds, AtFault, LineAdded, Starts, moving_from};
ghost use Rattle.recording.specs.Verdicts.{ReadAs};

use super::faults::Failure;
use super::reader::Reader;
use super::records::{Fields, Kind, Record, Setup};
use buffers::{Direct, PerCell, Queue, StoreBuffer, StrongCells};
use ledger::Move;
use program::{Line, Program};
use refusal::Refusal;
use replay::{Name, Replay, Verdict};
use std::alloc::Global;
use std::array;

// the most lines that a program has, as the definitions say; one constant over crates would be no plainer
const LINES: usize = 128;

// Reads a recording, replays its run over its store buffer, and judges it into the list. Answers the verdict, or the first fault with
// its record and byte, and then the list is as before; want of memory is told before anything is written. The list is the caller's memory,
// so the verdict says how much of it is written.
pub fn judge_recording(
    heap: Global,
    recording: &[u8],
    list: &mut [Name],
) -> Result<Verdict, Failure>
    ensures { ReadAs (reading recording.now) (length recording.now) list.old result list.new }
{
    let mut reader = Reader::new(recording);
    let setup = reader.read_setup()?;
    let mut program = Program::new(heap)?;
    reader.add_instructions(&mut program)?;
    match setup.kind {
        Kind::Direct => reader.judge_over(heap, Direct::new(heap)?, setup, program, list),
        Kind::Queue => reader.judge_over(heap, Queue::new(heap)?, setup, program, list),
        Kind::PerCell => reader.judge_over(heap, PerCell::new(heap)?, setup, program, list),
    }
}

// Which of the sixteen cells a mask chooses.
fn chosen_cells(mask: u16) -> [bool; 16]
    ensures { result ≡ chosen_by mask }
{
    array::from_fn(
        |cell|
            requires { cell < 16 }
            ensures { result ≡ has_bit cell mask }
        { mask >> cell & 1 == 1 },
    )
}

// The move that a record offers.
impl TryFrom<Record> for Move {
    type Error = Refusal;

    ghost try_from_gives = { λ found offered. offered ≡ ok_or (move_of found) RecordOutOfPlace };

    fn try_from(found: Record) -> Result<Move, Refusal> {
        match found {
            Record::Run {
                thread,
                instruction,
            } => Ok(Move::Run {
                thread: thread as usize,
                instruction: instruction as usize,
            }),
            Record::Drain { thread, cell } => Ok(Move::Drain {
                thread: thread as usize,
                cell: cell as usize,
            }),
            Record::Setup(_) | Record::Instruction(_) => Err(Refusal::RecordOutOfPlace),
        }
    }
}

// Adds the line that the fields say. A full program refuses first, then a field that is out of range or not used and not 0.
fn add_line(program: &mut Program, fields: Fields) -> Result<(), Refusal>
    ensures { LineAdded (lines_of program.old) fields result (lines_of program.new) }
{
    if program.len() >= LINES {
        return Err(Refusal::ProgramFull);
    }
    let line = Line::try_from(fields)?;
    program.add(line)?;
    Ok(())
}

impl Reader<'_> {
    // The setup, which comes first.
    fn read_setup(&mut self) -> Result<Setup, Failure>
        requires { self.old.place ≡ record { index = 0; byte = 0 } }
        ensures recording { self.new.recording.now ≡ self.old.recording.now }
        ensures setup { MatchResult result (Starts self.old.recording.now self.new.place) (AtFault (reading self.old.recording.now)) }
    {
        let found = self.peek()?;
        let Some(Record::Setup(setup)) = found else {
            return self.placed(Err(Refusal::RecordOutOfPlace));
        };
        self.pass(Record::Setup(setup));
        Ok(setup)
    }

    // Adds the instructions from here on.
    fn add_instructions(&mut self, program: &mut Program) -> Result<(), Failure>
        ensures recording { self.new.recording.now ≡ self.old.recording.now }
        ensures added { Adds self.old.recording.now self.old.place (lines_of program.old) result self.new.place (lines_of program.new) }
    {
        while let Some(found) = self.peek()? {
            let Record::Instruction(fields) = found else {
                return Ok(());
            };
            self.placed(add_line(program, fields))?;
            self.pass(found);
        }
        Ok(())
    }

    // Judges the moves from here on, of the program over the strong cells of the setup laid over a buffer of its kind.
    fn judge_over<B: StoreBuffer + Drop>(
        &mut self,
        heap: Global,
        below: B,
        setup: Setup,
        program: Program,
        list: &mut [Name],
    ) -> Result<Verdict, Failure>
        requires { B.StoreBuffer.rules below ≡ kind_rules setup.kind }
        ensures { ReadAs (moving_from self.old.recording.now self.old.place (lines_of program) [] setup) (length self.old.recording.now) list.old result list.new }
    {
        let chosen = chosen_cells(setup.strong);
        let replay = Replay::new(heap, program, StrongCells::new(below, chosen))?;
        self.judge_moves(replay, list)
    }

    // Offers the moves from here on to a fresh replay, and judges it into the list.
    fn judge_moves<B: StoreBuffer + Drop>(
        &mut self,
        mut replay: Replay<B>,
        list: &mut [Name],
    ) -> Result<Verdict, Failure>
        requires { held (B.StoreBuffer.lists replay.buffer) replay.state ≡ fresh_held }
        ensures { (s : Setup) → B.StoreBuffer.rules replay.buffer ≡ rules_of s → ReadAs (moving_from self.old.recording.now self.old.place (lines_of replay.program) [] s) (length self.old.recording.now) list.old result list.new }
    {
        while let Some(found) = self.peek()? {
            let offered = self.placed(Move::try_from(found))?;
            self.placed(replay.offer(offered))?;
            self.pass(found);
        }
        self.placed(replay.judge(list))
    }
}
