//! Commands are performed.
ghost use Rattle.std.specs.Prelude.{◌≡◌, ◌∷◌, [], None, length, All, OnOk, OnErr};
ghost use Rattle.pgs_command.specs.Ranges.{IsInRange, IsWorkInRange};
ghost use Rattle.pgs_step.specs.declared.events.What.TheVariants as what;
ghost use Rattle.session_rules.specs.Elements as element;
ghost use Rattle.session_rules.specs.Standing.{IsAtRest, IsWorking};
ghost use Rattle.session_rules.specs.Works.{elements, row_of};
ghost use Rattle.session_rules.specs.Commands.{elements_of, in_transaction, then_ok, transaction_of};
ghost use Rattle.session_store.specs.State.{levels_of, portals_of, session_of};
ghost use Rattle.session_commands.specs.Answers.{refusal_of};
ghost use Rattle.session_core.specs.Lines.{IsAbortedBlock, IsBetweenLines, IsInBlock};
ghost use Rattle.session_commands.specs.Performed.{now, most_steps, most_work, HasRoom, IsBetweenSteps, Performed};

use crate::session::Session;
use crate::works::do_work;
use owner_kinds::ExtKind;
use pgs_command::{Command, TransactionCommand, Work};
use pgs_step::{Emit, Error, What};
use reset_callbacks::ResetHook;
use session_commands::Shared;

impl<H: ResetHook> Session<H> {
    /// Performs a command up to its `ok`: in the transaction that is open, or in one that is begun for it alone.
    ///
    /// The error is that of the first check or fallible call that was refused. `TransactionAborted` comes in an aborted
    /// transaction, of which only the end is taken. After an error the session stands between two steps, and `recover` comes next.
    pub fn perform<K: ExtKind, E: Emit>(
        &mut self,
        command: &Command,
        shared: &mut Shared<'_, H, K>,
        out: &mut E,
    ) -> Result<(), Error>
        requires lines { IsBetweenLines (now self.old shared.old) }
        requires range { IsInRange command.now }
        requires room { HasRoom most_steps (now self.old shared.old) }
        ensures performed { Performed most_steps (elements_of command.now (session_of self.old shared.old.space.now)) (now self.old shared.old) (now self.new shared.new) (λ events. E.emits out.old events out.new) (refusal_of result) }
        ensures lines { OnOk result (IsBetweenLines (now self.new shared.new)) }
        ensures between { OnErr result (IsBetweenSteps (now self.new shared.new)) }
    {
        match self.store.deepest_level() {
            None => self.perform_idle(command, shared, out),
            Some(level) if level.aborted => self.perform_aborted(command, shared, out),
            Some(_) => self.perform_in_block(command, shared, out),
        }
    }

    /// Performs a command where no transaction is open.
    fn perform_idle<K: ExtKind, E: Emit>(
        &mut self,
        command: &Command,
        shared: &mut Shared<'_, H, K>,
        out: &mut E,
    ) -> Result<(), Error>
        requires between { IsBetweenSteps (now self.old shared.old) }
        requires rest { All IsAtRest (portals_of self.old.portals) }
        requires none { self.old.levels ≡ [] }
        requires range { IsInRange command.now }
        requires room { HasRoom most_steps (now self.old shared.old) }
        ensures performed { Performed most_steps (elements_of command.now (session_of self.old shared.old.space.now)) (now self.old shared.old) (now self.new shared.new) (λ events. E.emits out.old events out.new) (refusal_of result) }
        ensures between { OnErr result (IsBetweenSteps (now self.new shared.new)) }
    {
        match command {
            Command::Nothing => Ok(()),
            Command::Transaction(command) => self.transact_idle(command, shared, out),
            Command::Work(work) => self.work_alone(work, shared, out),
        }
    }

    /// Performs a command in a transaction that isn't aborted.
    fn perform_in_block<K: ExtKind, E: Emit>(
        &mut self,
        command: &Command,
        shared: &mut Shared<'_, H, K>,
        out: &mut E,
    ) -> Result<(), Error>
        requires between { IsBetweenSteps (now self.old shared.old) }
        requires rest { All IsAtRest (portals_of self.old.portals) }
        requires block { IsInBlock self.old.levels }
        requires range { IsInRange command.now }
        requires room { HasRoom most_steps (now self.old shared.old) }
        ensures performed { Performed most_steps (elements_of command.now (session_of self.old shared.old.space.now)) (now self.old shared.old) (now self.new shared.new) (λ events. E.emits out.old events out.new) (refusal_of result) }
        ensures between { OnErr result (IsBetweenSteps (now self.new shared.new)) }
    {
        match command {
            Command::Nothing => Ok(()),
            Command::Transaction(command) => self.transact_in_block(command, shared, out),
            Command::Work(work) => self.work_in_block(work, shared, out),
        }
    }

    /// Performs a command in an aborted transaction.
    fn perform_aborted<K: ExtKind, E: Emit>(
        &mut self,
        command: &Command,
        shared: &mut Shared<'_, H, K>,
        out: &mut E,
    ) -> Result<(), Error>
        requires between { IsBetweenSteps (now self.old shared.old) }
        requires block { IsAbortedBlock self.old.levels }
        requires room { HasRoom 3 (now self.old shared.old) }
        ensures performed { Performed 3 (elements_of command.now (session_of self.old shared.old.space.now)) (now self.old shared.old) (now self.new shared.new) (λ events. E.emits out.old events out.new) (refusal_of result) }
        ensures between { OnErr result (IsBetweenSteps (now self.new shared.new)) }
    {
        match command {
            Command::Nothing => Ok(()),
            Command::Transaction(command) => self.transact_aborted(command, shared, out),
            Command::Work(_) => Err(Error::TransactionAborted),
        }
    }

    /// A transaction begins; what ends one, or is done at a savepoint, has none to end.
    fn transact_idle<K: ExtKind, E: Emit>(
        &mut self,
        command: &TransactionCommand,
        shared: &mut Shared<'_, H, K>,
        out: &mut E,
    ) -> Result<(), Error>
        requires between { IsBetweenSteps (now self.old shared.old) }
        requires rest { All IsAtRest (portals_of self.old.portals) }
        requires none { self.old.levels ≡ [] }
        requires room { HasRoom most_steps (now self.old shared.old) }
        ensures performed { Performed most_steps (then_ok (transaction_of command.now [])) (now self.old shared.old) (now self.new shared.new) (λ events. E.emits out.old events out.new) (refusal_of result) }
        ensures between { OnErr result (IsBetweenSteps (now self.new shared.new)) }
    {
        match command {
            TransactionCommand::Begin => self.begin(None, shared, out),
            TransactionCommand::Commit | TransactionCommand::Rollback => {
                warn_outside(out);
                Ok(())
            }
            TransactionCommand::Savepoint(_)
            | TransactionCommand::Release(_)
            | TransactionCommand::RollbackTo(_) => Err(Error::NoTransactionBlock),
        }
    }

    /// A transaction that isn't aborted ends, or something is done at a savepoint.
    fn transact_in_block<K: ExtKind, E: Emit>(
        &mut self,
        command: &TransactionCommand,
        shared: &mut Shared<'_, H, K>,
        out: &mut E,
    ) -> Result<(), Error>
        requires between { IsBetweenSteps (now self.old shared.old) }
        requires rest { All IsAtRest (portals_of self.old.portals) }
        requires block { IsInBlock self.old.levels }
        requires room { HasRoom most_steps (now self.old shared.old) }
        ensures performed { Performed most_steps (then_ok (transaction_of command.now (levels_of self.old.levels))) (now self.old shared.old) (now self.new shared.new) (λ events. E.emits out.old events out.new) (refusal_of result) }
        ensures between { OnErr result (IsBetweenSteps (now self.new shared.new)) }
    {
        match command {
            TransactionCommand::Begin => {
                warn_inside(out);
                Ok(())
            }
            TransactionCommand::Commit => {
                self.commit_block(shared, out);
                Ok(())
            }
            TransactionCommand::Rollback => {
                self.roll_block_back(shared, out);
                Ok(())
            }
            TransactionCommand::Savepoint(name) => self.begin(Some(*name), shared, out),
            TransactionCommand::Release(name) => self.release(name, shared, out),
            TransactionCommand::RollbackTo(name) => self.return_to(name, shared, out),
        }
    }

    /// An aborted transaction: only its end is taken, and the way back to a savepoint.
    fn transact_aborted<K: ExtKind, E: Emit>(
        &mut self,
        command: &TransactionCommand,
        shared: &mut Shared<'_, H, K>,
        out: &mut E,
    ) -> Result<(), Error>
        requires between { IsBetweenSteps (now self.old shared.old) }
        requires block { IsAbortedBlock self.old.levels }
        requires room { HasRoom 3 (now self.old shared.old) }
        ensures performed { Performed 3 (elements_of (Command.Transaction command.now) (session_of self.old shared.old.space.now)) (now self.old shared.old) (now self.new shared.new) (λ events. E.emits out.old events out.new) (refusal_of result) }
        ensures between { OnErr result (IsBetweenSteps (now self.new shared.new)) }
    {
        match command {
            TransactionCommand::Commit | TransactionCommand::Rollback => {
                self.roll_block_back(shared, out);
                Ok(())
            }
            TransactionCommand::RollbackTo(name) => self.return_to(name, shared, out),
            TransactionCommand::Begin
            | TransactionCommand::Savepoint(_)
            | TransactionCommand::Release(_) => Err(Error::TransactionAborted),
        }
    }

    /// Something is done in a level that is begun for it alone.
    fn work_alone<K: ExtKind, E: Emit>(
        &mut self,
        work: &Work,
        shared: &mut Shared<'_, H, K>,
        out: &mut E,
    ) -> Result<(), Error>
        requires between { IsBetweenSteps (now self.old shared.old) }
        requires rest { All IsAtRest (portals_of self.old.portals) }
        requires none { self.old.levels ≡ [] }
        requires range { IsWorkInRange work.now }
        requires room { HasRoom most_steps (now self.old shared.old) }
        ensures performed { Performed most_steps (in_transaction [] (elements (row_of work.now (portals_of self.old.portals)))) (now self.old shared.old) (now self.new shared.new) (λ events. E.emits out.old events out.new) (refusal_of result) }
        ensures between { OnErr result (IsBetweenSteps (now self.new shared.new)) }
    {
        self.start_level(None, true, shared, out)?;
        self.work(work, shared, out)?;
        self.commit_alone(shared, out);
        Ok(())
    }

    /// The only level commits, and the last word.
    fn commit_alone<K: ExtKind, E: Emit>(&mut self, shared: &mut Shared<'_, H, K>, out: &mut E)
        requires between { IsBetweenSteps (now self.old shared.old) }
        requires one { length self.old.levels ≡ 1 }
        ensures performed { Performed 0 (element.CommitTop ∷ element.Says what.Ok ∷ []) (now self.old shared.old) (now self.new shared.new) (λ events. E.emits out.old events out.new) None }
    {
        self.commit_top(shared, out);
        out.emit(What::Ok);
    }

    /// What is done in a transaction that isn't aborted.
    fn work<K: ExtKind, E: Emit>(
        &mut self,
        work: &Work,
        shared: &mut Shared<'_, H, K>,
        out: &mut E,
    ) -> Result<(), Error>
        requires between { IsBetweenSteps (now self.old shared.old) }
        requires rest { All IsAtRest (portals_of self.old.portals) }
        requires active { IsWorking (levels_of self.old.levels) }
        requires range { IsWorkInRange work.now }
        requires room { HasRoom most_work (now self.old shared.old) }
        ensures performed { Performed most_work (elements (row_of work.now (portals_of self.old.portals))) (now self.old shared.old) (now self.new shared.new) (λ events. E.emits out.old events out.new) (refusal_of result) }
        ensures between { IsBetweenSteps (now self.new shared.new) }
        ensures levels { OnOk result (levels_of self.new.levels ≡ levels_of self.old.levels) }
    {
        do_work(&mut self.store, work, shared, out)
    }

    /// Something is done in a transaction block, and the last word.
    fn work_in_block<K: ExtKind, E: Emit>(
        &mut self,
        work: &Work,
        shared: &mut Shared<'_, H, K>,
        out: &mut E,
    ) -> Result<(), Error>
        requires between { IsBetweenSteps (now self.old shared.old) }
        requires rest { All IsAtRest (portals_of self.old.portals) }
        requires block { IsInBlock self.old.levels }
        requires range { IsWorkInRange work.now }
        requires room { HasRoom most_steps (now self.old shared.old) }
        ensures performed { Performed most_steps (in_transaction (levels_of self.old.levels) (elements (row_of work.now (portals_of self.old.portals)))) (now self.old shared.old) (now self.new shared.new) (λ events. E.emits out.old events out.new) (refusal_of result) }
        ensures between { OnErr result (IsBetweenSteps (now self.new shared.new)) }
    {
        self.work(work, shared, out)?;
        out.emit(What::Ok);
        Ok(())
    }
}

/// The warning that a transaction is open already, and the last word.
#[inline(never)]
fn warn_inside<E: Emit>(out: &mut E)
    ensures { E.emits out.old (what.AlreadyInTransaction ∷ what.Ok ∷ []) out.new }
{
    out.emit(What::AlreadyInTransaction);
    out.emit(What::Ok);
}

/// The warning that no transaction is open, and the last word.
#[inline(never)]
fn warn_outside<E: Emit>(out: &mut E)
    ensures { E.emits out.old (what.NotInTransaction ∷ what.Ok ∷ []) out.new }
{
    out.emit(What::NotInTransaction);
    out.emit(What::Ok);
}
