//! Commands, one move at a time, whose run is handed in each time.

ghost use Rattle.std.specs.Prelude.{◌≡◌, ◌++◌, ◌∷◌, [], is_some, Some, None, IfOk, OnErr};
ghost use Rattle.std.specs.Option.{option_map};
ghost use Rattle.boot_moves.specs.Deeds.{Act, act_of, after_all};
ghost use Rattle.boot_moves.specs.Ending.{AreOfCommand, LeadsTo, Ends, with_asked};
ghost use Rattle.boot_moves.specs.Next.{IfMove, IfEnded};
ghost use Rattle.boot_moves.specs.Parts.{heard};

use crate::parts::{Answer, Move, Told};
use crate::replay::Kept;
use crate::replaying::{Outcome, Start, replay};
use boot_journal::{BootId, CommandError, Journal, Run};
use machine_names::MachineName;
use std::alloc::{AllocError, Global};
use std::marker::Model;
use uefi_vars::Vars;

/// What comes next.
#[derive(Debug, Drop)]
pub enum Next<A, F> {
    /// A move, [`Dialogue::asked`], of which the caller tells by [`Dialogue::tell`] what became.
    Move,
    /// Nothing more: the command answers this.
    Ended(Result<A, CommandError<u32, F>>),
}

/// What a caller and a command of [`boot_journal`] said to each other, without what the command runs: the caller hands that
/// in at each call of [`Dialogue::next`], the same each time. [`Moves`](crate::Moves) keeps both.
#[derive(Debug, Drop)]
pub struct Dialogue {
    alloc: Global,
    machine: MachineName,
    boot: BootId,
    first: Kept,
    /// The moves that were told. While one is asked for, there is room for it.
    told: Vec<Told>,
    asked: Option<Move>,
}

impl Model for Dialogue {
    ghost use Rattle.std.specs.Prelude.{◌<◌, IfSome};
    ghost use Rattle.std.specs.Coded.{codes};
    ghost use Rattle.std.specs.FinMap.{code as map_code};
    ghost use Rattle.std.specs.Option.{option_map};
    ghost use Rattle.std.specs.Vec.{vec_len, vec_capacity};
    ghost use Rattle.boot_moves.specs.Deeds.{act_of, deeds_of};
    ghost use Rattle.boot_moves.specs.Kept.{store_of};
    ghost use Rattle.boot_moves.specs.Parts.{DialogueParts};

    ghost Value = { DialogueParts };

    ghost coded = { Prim.hlevel (codes, map_code) };

    ghost view = { λ d. record {
      machine = d.machine;
      first = store_of d.first;
      boot = d.boot;
      trace = deeds_of d.told.items;
      asked = option_map act_of d.asked;
    } };

    ghost invariant = { λ d. IfSome d.asked (λ _. vec_len d.told < vec_capacity d.told) };
}

impl Dialogue {
    /// The dialogue with a command over the machine of this name, which has these variables and this journal. Those of the
    /// boot manager are given with their attributes. A BootKeepState among the variables doesn't count: the journal has it.
    /// The identity is that of the machine's start. That the journal is another machine's isn't noticed here:
    /// [`read_journal`](boot_journal::read_journal) tells whose it is.
    pub fn new(
        alloc: Global,
        machine: MachineName,
        vars: Vars,
        journal: Journal,
        boot: BootId,
    ) -> Dialogue
        ensures { result ≡ record {
          machine = machine;
          first = record { variables = vars; journal = journal };
          boot = boot;
          trace = [];
          asked = None;
        } }
    {
        Dialogue {
            alloc,
            machine,
            boot,
            first: Kept { vars, journal },
            told: Vec::new(alloc),
            asked: None,
        }
    }

    /// What the machine is called, in the files of its journals.
    pub fn machine(&self) -> &MachineName
        ensures { result.now ≡ self.now.machine }
    {
        &self.machine
    }

    /// The move that is asked for, if one is.
    pub fn asked(&self) -> Option<&Move>
        ensures { option_map (λ asked. act_of asked.now) result ≡ self.now.asked }
    {
        self.asked.as_ref()
    }

    /// What comes next in the command that runs this, by what was told so far. Asking again gives the same, as long as
    /// nothing more is told.
    ///
    /// # Errors
    ///
    /// [`AllocError`] if memory was refused: nothing has happened, and the same call may be made again. A run that doesn't
    /// lead to the same each time, as one that reads a cell, can't be told from that, and `next` then fails for ever.
    pub fn next<R: Run>(&mut self, run: R) -> Result<Next<R::Answer, R::Fault>, AllocError>
        // What was told stays, and what is asked for is the next move.
        ensures machine { self.new.machine ≡ self.old.machine }
        ensures first { self.new.first ≡ self.old.first }
        ensures boot { self.new.boot ≡ self.old.boot }
        ensures trace { self.new.trace ≡ self.old.trace }
        ensures refused { OnErr result (self.new ≡ self.old) }
        // Whatever is cut off after whichever of the moves that were told, or during or after the one that is asked for, leaves
        // what a cut leaves in the command.
        ensures asks { IfOk result (λ next. IfMove next ((act : Act) × (self.new.asked ≡ Some act)
            × AreOfCommand (LeadsTo (R.leads run)) self.old.boot self.old.first (with_asked self.old.trace act))) }
        // What was told leads to what the command says of its answer.
        ensures ended { IfOk result (λ next. IfEnded next (λ ended. (self.new.asked ≡ None)
            × Ends (R.leads run) (R.refuses run) self.old.boot
            self.old.first (after_all self.old.trace self.old.first) ended)) }
        ensures moments { IfOk result (λ next. IfEnded next (λ ended. AreOfCommand (LeadsTo (R.leads run))
            self.old.boot self.old.first self.old.trace)) }
    {
        let start = Start {
            machine: &self.machine,
            first: &self.first,
            told: &self.told,
        };
        match replay(self.alloc, start, run, &self.boot)? {
            Outcome::Asks(asked) => {
                self.told.reserve(1)?;
                self.asked = Some(asked);
                Ok(Next::Move)
            }
            Outcome::Ends(result) => {
                self.asked = None;
                Ok(Next::Ended(result))
            }
        }
    }

    /// Tells what became of the move that is asked for, which takes no memory. It says no, and nothing has happened, if none
    /// is.
    pub fn tell(&mut self, answer: Answer) -> bool
        ensures told { self.new ≡ heard answer self.old }
        ensures was { result ≡ is_some self.old.asked }
    {
        match self.asked.take() {
            Some(asked) => {
                self.told.push_reserved(Told { asked, answer });
                true
            }
            None => false,
        }
    }
}
