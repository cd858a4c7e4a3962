//! A script that is played as it is read.
ghost use Rattle.std.specs.Prelude.{◌≡◌, ◌+◌, ◌<◌, ◌≤◌, ◌^◌, ◌↔◌, ◌∷◌, [], true, length, IsErr, IfOk, OnOk, None};
ghost use Rattle.mx_run_io.specs.Ends.{reader_of, reads_of, most_reads_of, has_failed_read, has_failed_write, Wrote};
ghost use Rattle.mx_run_local.specs.Run.{bad_line_text, WasAsked, most_script_reads};
ghost use Rattle.mx_run_local.specs.Session.{IsUnended, Plays, EndsLine, PlaysAll};
ghost use Rattle.mx_run_local.specs.declared.session.Turn.TheVariants.{Bad};

use crate::player::Player;
use crate::script::{Line, read_line};
use crate::text::write_said;
use arrayvec::ArrayVec;
use mx_run_io::{Input, Output, WriteFailed};
use std::io::{Read, Write};

/// How many bytes one read asks for.
const READ_SIZE: usize = 4096;

// rule program-reads
/// The most reads that `run_play` makes.
pub const MOST_SCRIPT_READS: u64 = 4_294_967_295;

// rule play-long-lines
/// A run of a script: its player, the bytes of the line that is being read, and the number of lines before it.
#[derive(Drop)]
pub struct Session {
    player: Player,
    line: ArrayVec<u8, 64>,
    lines: u64,
}

/// How a run goes on after some bytes of its script.
#[derive(Clone, Copy)]
pub enum Turn {
    On,
    /// A bad line ended it.
    Bad,
    /// Memory for the event of a call was refused.
    NoMemory,
}

impl Session {
    /// A session that begins.
    pub fn new(player: Player) -> Session
        ensures player { result.player ≡ player }
        ensures empty { result.line.items ≡ [] }
        ensures first { result.lines ≡ 0 }
    {
        Session {
            player,
            line: ArrayVec::new(),
            lines: 0,
        }
    }

    /// Plays the line that was read.
    fn end_line<W: Write>(&mut self, output: &mut Output<W>) -> Result<Turn, WriteFailed>
        requires counted { self.old.lines + 1 < 2 ^ 64 }
        ensures played { IfOk result (λ turn. EndsLine self.old turn self.new (Wrote W.contents output.old output.new)) }
        ensures counted { OnOk result (self.new.lines ≤ self.old.lines + 1) }
        ensures failed { IsErr result → has_failed_write output.new ≡ true }
    {
        match read_line(self.line.as_slice()) {
            Line::Silent => {}
            Line::Bad => return self.bad_line(output),
            Line::Call(call) => match self.player.call(call) {
                Ok(said) => write_said(output, &self.player, said)?,
                Err(_) => return Ok(Turn::NoMemory),
            },
            Line::Retire => {
                let said = self.player.retire();
                write_said(output, &self.player, said)?
            }
        }
        self.line.clear();
        self.lines += 1;
        Ok(Turn::On)
    }

    // rule play-long-lines
    fn bad_line<W: Write>(&self, output: &mut Output<W>) -> Result<Turn, WriteFailed>
        requires counted { self.now.lines + 1 < 2 ^ 64 }
        ensures turn { IfOk result (λ turn. turn ≡ Bad) }
        ensures bytes { OnOk result (Wrote W.contents output.old output.new (bad_line_text (self.now.lines + 1))) }
        ensures failed { IsErr result → has_failed_write output.new ≡ true }
    {
        output.print(format_args!("bad-line {}\n", self.lines + 1))?;
        Ok(Turn::Bad)
    }

    /// Takes in a byte of the script.
    fn take<W: Write>(&mut self, byte: u8, output: &mut Output<W>) -> Result<Turn, WriteFailed>
        requires unended { IsUnended self.old.line.items }
        requires counted { self.old.lines + 1 < 2 ^ 64 }
        ensures played { IfOk result (λ turn. Plays self.old (byte ∷ []) turn self.new (Wrote W.contents output.old output.new)) }
        ensures counted { OnOk result (self.new.lines ≤ self.old.lines + 1) }
        ensures failed { IsErr result → has_failed_write output.new ≡ true }
    {
        if byte == b'\n' {
            return self.end_line(output);
        }
        if self.line.is_full() {
            return self.bad_line(output);
        }
        self.line.push(byte);
        Ok(Turn::On)
    }

    /// Takes in bytes of the script, up to the end of the run.
    fn take_all<W: Write>(
        &mut self,
        bytes: &[u8],
        output: &mut Output<W>,
    ) -> Result<Turn, WriteFailed>
        requires unended { IsUnended self.old.line.items }
        requires counted { self.old.lines + length bytes.now + 1 < 2 ^ 64 }
        ensures played { IfOk result (λ turn. Plays self.old bytes.now turn self.new (Wrote W.contents output.old output.new)) }
        ensures counted { OnOk result (self.new.lines ≤ self.old.lines + length bytes.now) }
        ensures failed { IsErr result → has_failed_write output.new ≡ true }
    {
        for byte in bytes {
            match self.take(*byte, output)? {
                Turn::On => {}
                Turn::Bad => return Ok(Turn::Bad),
                Turn::NoMemory => return Ok(Turn::NoMemory),
            }
        }
        Ok(Turn::On)
    }

    /// Plays a script to its end, to a bad line, or until memory is refused. None where a read failed.
    pub fn play_all<R: Read, W: Write>(
        &mut self,
        input: &mut Input<R>,
        output: &mut Output<W>,
    ) -> Result<Option<Turn>, WriteFailed>
        requires empty { self.old.line.items ≡ [] }
        requires first { self.old.lines ≡ 0 }
        requires allowed { most_reads_of input.old ≤ most_script_reads }
        ensures reads { reads_of input.new ≤ reads_of input.old + most_script_reads }
        ensures asked { has_failed_read input.new ≡ true → WasAsked (has_failed_read input.old)
            (most_reads_of input.old) (reads_of input.old) (reads_of input.new) }
        ensures unread { IfOk result (λ turn. (turn ≡ None) ↔ (has_failed_read input.new ≡ true)) }
        ensures played { IfOk result (λ turn. PlaysAll self.old turn
            (R.remaining (reader_of input.old)) (R.remaining (reader_of input.new))
            (Wrote W.contents output.old output.new)) }
        ensures failed { IsErr result → has_failed_write output.new ≡ true }
    {
        let mut buffer = [0u8; READ_SIZE];
        for _ in 0..MOST_SCRIPT_READS {
            let count = match input.read(&mut buffer) {
                Ok(count) => count,
                Err(_) => return Ok(None),
            };
            if count == 0 {
                return Ok(Some(self.end_line(output)?));
            }
            match self.take_all(&buffer[..count], output)? {
                Turn::On => output.flush()?,
                Turn::Bad => return Ok(Some(Turn::Bad)),
                Turn::NoMemory => return Ok(Some(Turn::NoMemory)),
            }
        }
        input.stop();
        Ok(None)
    }
}
