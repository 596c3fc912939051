//! What an event changes of a keeper.

ghost use Rattle.std.specs.Prelude.{◌≡◌, IfOk, OnOk, OnErr};
ghost use Rattle.boot_requests.specs.Update.{Fits, with_plan, after_update};

use crate::edit::delete_next;
use crate::keeper::{Keeper, copy_plan};
use crate::mark::Mark;
use crate::request::Request;
use std::alloc::{AllocError, Global};
use std::rc::Rc;
use uefi_vars::{BootPlan, Changes};

/// What an event changes of a keeper, with all the memory that this takes but that for the names of new variables.
#[derive(Debug, Drop)]
pub(crate) enum Update {
    /// All stays as it is.
    Nothing,
    /// The request waits under this number.
    Waits(u32, Rc<Request>),
    /// Requests were applied: what they change of the variables, and the mark after them.
    Applied(Changes, Mark),
    /// This plan is prepared, and BootNext is deleted.
    Prepared(BootPlan),
    /// The plan that was prepared is there no longer.
    HandedOut,
    /// What waited and what was prepared is forgotten.
    Restarted,
}

impl Keeper {
    /// Changes the keeper so, or not at all if there is no memory for the names of new variables.
    #[inline(always)]
    pub(crate) fn update(&mut self, update: Update) -> Result<(), AllocError>
        requires { Fits self.old update }
        ensures updated { OnOk result (self.new ≡ after_update self.old update) }
        ensures unchanged { OnErr result (self.new ≡ self.old) }
    {
        match update {
            Update::Nothing => {}
            Update::Waits(number, request) => self.window.keep(number, request),
            Update::Applied(changes, mark) => {
                self.vars.make(changes)?;
                self.window
                    .pass_to(self.mark.next_number(), mark.next_number());
                self.mark = mark;
            }
            Update::Prepared(plan) => {
                delete_next(&mut self.vars);
                set_plan(&mut self.plan, Some(plan));
            }
            Update::HandedOut => set_plan(&mut self.plan, None),
            Update::Restarted => {
                self.window.clear();
                set_plan(&mut self.plan, None);
            }
        }
        Ok(())
    }

    /// A keeper that is changed so, while this one stays.
    pub(crate) fn updated(&self, alloc: Global, update: Update) -> Result<Keeper, AllocError>
        requires { Fits self.now update }
        ensures { IfOk result (λ keeper. keeper ≡ after_update self.now update) }
    {
        let plan = self.plan_left(alloc, &update)?;
        let mut keeper = self.copy_with(alloc, plan)?;
        keeper.update(update)?;
        Ok(keeper)
    }

    /// An equal plan, if one is prepared and the update leaves it.
    fn plan_left(&self, alloc: Global, update: &Update) -> Result<Option<BootPlan>, AllocError>
        ensures { IfOk result (λ plan.
            after_update (with_plan self.now plan) update.now ≡ after_update self.now update.now) }
    {
        match update {
            Update::Prepared(_) | Update::HandedOut | Update::Restarted => Ok(None),
            Update::Nothing | Update::Waits(..) | Update::Applied(..) => {
                let plan = copy_plan(alloc, &self.plan)?;
                Ok(plan)
            }
        }
    }

    /// An equal keeper, but for the plan that is prepared, which is this one or none.
    fn copy_with(&self, alloc: Global, plan: Option<BootPlan>) -> Result<Keeper, AllocError>
        ensures { IfOk result (λ keeper. keeper ≡ with_plan self.now plan) }
    {
        let vars = self.vars.copy(alloc)?;
        let mark = self.mark.copy(alloc)?;
        let window = self.window.copy(alloc)?;
        Ok(Keeper {
            vars,
            mark,
            window,
            plan,
        })
    }
}

/// This plan is the one that is prepared from then on, or none is.
fn set_plan(plan: &mut Option<BootPlan>, now: Option<BootPlan>)
    ensures { plan.new ≡ now }
{
    *plan = now;
}
