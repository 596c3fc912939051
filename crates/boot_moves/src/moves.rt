//! Commands, one move at a time.

ghost use Rattle.std.specs.Prelude.{◌≡◌, [], is_some, Some, None, IfOk, OnErr};
ghost use Rattle.std.specs.Option.{option_map};
ghost use Rattle.boot_moves.specs.Deeds.{Act, act_of, after_all};
ghost use Rattle.boot_moves.specs.Ending.{AreOfCommand, LeadsTo, Ends, with_asked};
ghost use Rattle.boot_moves.specs.Next.{IfMove, IfEnded};
ghost use Rattle.boot_moves.specs.Parts.{told_of};

use crate::dialogue::{Dialogue, Next};
use crate::parts::{Answer, Move};
use boot_journal::{BootId, Journal, Run};
use machine_names::MachineName;
use std::alloc::{AllocError, Global};
use std::marker::Model;
use uefi_vars::Vars;

/// A command of [`boot_journal`] over a machine, one move at a time: see the library's head.
#[derive(Debug, Drop)]
pub struct Moves<R> {
    dialogue: Dialogue,
    run: R,
}

impl<R> Model for Moves<R> {
    ghost use Rattle.std.specs.Coded.{codes};
    ghost use Rattle.std.specs.FinMap.{code as map_code};
    ghost use Rattle.boot_moves.specs.Parts.{MovesParts, running};

    ghost Value = { MovesParts R };

    ghost coded = { Prim.hlevel (codes, map_code) };

    ghost view = { λ m. running m.run m.dialogue };
}

impl<R: Run + Copy> Moves<R> {
    /// The command that runs this over the machine of this name, which has these variables and this journal, as
    /// [`Dialogue::new`] takes them.
    pub fn new(
        alloc: Global,
        machine: MachineName,
        vars: Vars,
        journal: Journal,
        boot: BootId,
        run: R,
    ) -> Moves<R>
        ensures { result ≡ record {
          begun = record { machine = machine; first = record { variables = vars; journal = journal }; boot = boot; run = run };
          trace = [];
          asked = None;
        } }
    {
        Moves {
            dialogue: Dialogue::new(alloc, machine, vars, journal, boot),
            run,
        }
    }

    /// What the machine is called, in the files of its journals.
    pub fn machine(&self) -> &MachineName
        ensures { result.now ≡ self.now.begun.machine }
    {
        self.dialogue.machine()
    }

    /// The move that is asked for, if one is.
    pub fn asked(&self) -> Option<&Move>
        ensures { option_map (λ asked. act_of asked.now) result ≡ self.now.asked }
    {
        self.dialogue.asked()
    }

    /// What comes next, as [`Dialogue::next`] says it. Asking again gives the same, as long as nothing more is told.
    ///
    /// # Errors
    ///
    /// [`AllocError`] as there.
    pub fn next(&mut self) -> Result<Next<R::Answer, R::Fault>, AllocError>
        // What was told stays, and what is asked for is the next move.
        ensures begun { self.new.begun ≡ self.old.begun }
        ensures trace { self.new.trace ≡ self.old.trace }
        ensures refused { OnErr result (self.new ≡ self.old) }
        // Whatever is cut off after whichever of the moves that were told, or during or after the one that is asked for, leaves
        // what a cut leaves in the command.
        ensures asks { IfOk result (λ next. IfMove next ((act : Act) × (self.new.asked ≡ Some act)
            × AreOfCommand (LeadsTo (R.leads self.old.begun.run)) self.old.begun.boot self.old.begun.first (with_asked self.old.trace act))) }
        // What was told leads to what the command says of its answer.
        ensures ended { IfOk result (λ next. IfEnded next (λ ended. (self.new.asked ≡ None)
            × Ends (R.leads self.old.begun.run) (R.refuses self.old.begun.run) self.old.begun.boot
            self.old.begun.first (after_all self.old.trace self.old.begun.first) ended)) }
        ensures moments { IfOk result (λ next. IfEnded next (λ ended. AreOfCommand (LeadsTo (R.leads self.old.begun.run))
            self.old.begun.boot self.old.begun.first self.old.trace)) }
    {
        self.dialogue.next(self.run)
    }

    /// Tells what became of the move that is asked for, which takes no memory. It says no, and nothing has happened, if none
    /// is.
    pub fn tell(&mut self, answer: Answer) -> bool
        ensures told { self.new ≡ told_of answer self.old }
        ensures was { result ≡ is_some self.old.asked }
    {
        self.dialogue.tell(answer)
    }
}
