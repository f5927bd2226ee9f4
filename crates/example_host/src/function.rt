//! A function of a sandbox, which the program that holds the world calls.
ghost use Rattle.std.specs.Prelude.{◌≡◌, ◌≢◌, ◌↔◌, ℕ, length, IsSome, IsNone, OnOk, OnErr, IfOk, IfErr, IsErrOf};
ghost use Rattle.rv_mem.specs.Bytes.{Bytes};
ghost use Rattle.sfi_host.specs.Changing.{OthersAreSame};
ghost use Rattle.sfi_host.specs.Joint.{Machine, IsMachine};
ghost use Rattle.sfi_host.specs.Plans.{IsJoint, IsCutJoint};
ghost use Rattle.sfi_host.specs.Worlds.{slots_of, status_at, IsSafeWorld, StaysOutsideData};

use rv_mem::Memory;
use sfi_host::{Gates, RunAnswer, Status, Turn, World};

/// A function of a sandbox, which takes a text in memory and leaves another of the same length
/// there: it gets the text's address in a0 and its length in a1, and returns by the gate of exit.
#[derive(Clone, Copy, Debug, PartialEq, Eq)]
pub struct Function {
    /// The number of its sandbox.
    pub sandbox: u32,
    /// Where it begins: the first address of a bundle or word of the sandbox's code.
    pub address: u32,
    /// Where its text lies, in the sandbox's data.
    pub text_address: u32,
    /// How many steps a call may take.
    pub steps: u32,
}

/// Why a call gave no text.
#[derive(Clone, Copy, Debug, PartialEq, Eq)]
pub enum CallError {
    /// One of the text's addresses isn't in the sandbox's data, or there is no such sandbox.
    /// Nothing changed.
    NoRoom,
    /// The sandbox hasn't stopped, or no bundle or word of its code begins at the function. The
    /// text stands in its place, and nothing else changed.
    NotEntered,
    /// The sandbox did its turn and didn't exit: it trapped, or it is ready, since it has yielded
    /// or used all its steps.
    NotReturned(Status),
    /// The host had no memory for a reply. The sandbox is ready, and stands at that call.
    Memory,
}

impl Function {
    ghost use Rattle.example_host.specs.Functions.{text_in, MayEnter, with_text, called, plan_of, HasRun, IsNotBegun, HasNotExited};

    /// Calls the function: writes the text into its place, enters the sandbox at the function, lets
    /// it run for one turn, and takes the text that it leaves there. `Ok` has the number with which
    /// it called exit.
    pub fn call<M: Memory, G: Gates>(
        self,
        world: &mut World<M>,
        gates: &mut G,
        text: &mut [u8],
    ) -> Result<u32, CallError>
        // When it isn't even begun, and what is left then.
        ensures no_room { IsErrOf result CallError.NoRoom
            ↔ IsNone (text_in self (length text.old) world.old) }
        ensures not_entered { IsErrOf result CallError.NotEntered
            ↔ (IsSome (text_in self (length text.old) world.old) × ¬ MayEnter self world.old) }
        ensures unchanged { IsErrOf result CallError.NoRoom → world.new ≡ world.old }
        ensures written { IsErrOf result CallError.NotEntered
            → world.new ≡ with_text self text.old world.old }
        ensures unasked { (error : CallError) → IsErrOf result error → IsNotBegun error
            → gates.new ≡ gates.old }

        // Else it is what its turn comes to, from the world in which the text is in its place and
        // the sandbox at the function.
        ensures ran { HasRun result → (machine : Machine) → IsMachine machine
            → IsJoint machine G.answer (plan_of self)
            (slots_of (called self text.old world.old)) gates.old (slots_of world.new) gates.new }
        ensures memory { IsErrOf result CallError.Memory → (machine : Machine) → IsMachine machine
            → IsCutJoint machine G.answer G.may_refuse (plan_of self)
            (slots_of (called self text.old world.old)) gates.old 0 (slots_of world.new) gates.new }

        // The number and the text are those that the sandbox left.
        ensures number { IfOk result
            (λ number. status_at (slots_of world.new) self.sandbox ≡ Some (Status.Exited number)) }
        ensures not_returned { (status : Status) → IsErrOf result (CallError.NotReturned status)
            → (status_at (slots_of world.new) self.sandbox ≡ Some status) × HasNotExited status }
        ensures text { OnOk result (text_in self (length text.old) world.new ≡ Some text.new) }
        ensures kept { OnErr result (text.new ≡ text.old) }

        // However it went, no other sandbox has changed, nor a byte that lies in no sandbox's data,
        // and each sandbox is safe as before.
        ensures others { OthersAreSame world.old self.sandbox world.new }
        ensures outside { StaysOutsideData world.old world.new.bytes }
        ensures safe { IsSafeWorld world.new }
    {
        self.enter(world, text)?;
        if let RunAnswer::Memory { .. } = self.run(world, gates) {
            return Err(CallError::Memory);
        }
        match world.status(self.sandbox).unwrap() {
            Status::Exited(number) => {
                world.read(self.sandbox, self.text_address, text);
                Ok(number)
            }
            status => Err(CallError::NotReturned(status)),
        }
    }

    /// Writes the text into its place, and enters the sandbox at the function, with the text's
    /// address and length as arguments. Nothing runs yet. The errors are `NoRoom` and `NotEntered`.
    fn enter<M: Memory>(self, world: &mut World<M>, text: &[u8]) -> Result<(), CallError>
        ensures no_room { IsErrOf result CallError.NoRoom
            ↔ IsNone (text_in self (length text.now) world.old) }
        ensures not_entered { IsErrOf result CallError.NotEntered
            ↔ (IsSome (text_in self (length text.now) world.old) × ¬ MayEnter self world.old) }
        ensures errors { IfErr result IsNotBegun }
        ensures unchanged { IsErrOf result CallError.NoRoom → world.new ≡ world.old }
        ensures written { IsErrOf result CallError.NotEntered
            → world.new ≡ with_text self text.now world.old }
        ensures called { OnOk result (world.new ≡ called self text.now world.old) }
        ensures room { OnOk result (IsSome (text_in self (length text.now) world.new)) }
        ensures others { OthersAreSame world.old self.sandbox world.new }
        ensures outside { (later : Bytes) → StaysOutsideData world.new later
            → StaysOutsideData world.old later }
        ensures safe { IsSafeWorld world.new }
    {
        world.stays_safe();
        if !world.write(self.sandbox, self.text_address, text) {
            return Err(CallError::NoRoom);
        }
        let arguments = [self.text_address, text.len() as u32, 0, 0, 0, 0, 0, 0];
        if !world.enter(self.sandbox, self.address, &arguments) {
            return Err(CallError::NotEntered);
        }
        Ok(())
    }

    /// Lets the sandbox run for one turn, in which the host `gates` answers its calls.
    fn run<M: Memory, G: Gates>(self, world: &mut World<M>, gates: &mut G) -> RunAnswer
        ensures done { result ≡ RunAnswer.Done → (machine : Machine) → IsMachine machine
            → IsJoint machine G.answer (plan_of self)
            (slots_of world.old) gates.old (slots_of world.new) gates.new }
        ensures memory { result ≢ RunAnswer.Done → (machine : Machine) → IsMachine machine
            → IsCutJoint machine G.answer G.may_refuse (plan_of self)
            (slots_of world.old) gates.old 0 (slots_of world.new) gates.new }
        ensures room { (n : ℕ) → IsSome (text_in self n world.old)
            → IsSome (text_in self n world.new) }
        ensures others { OthersAreSame world.old self.sandbox world.new }
        ensures outside { StaysOutsideData world.old world.new.bytes }
        ensures safe { IsSafeWorld world.new }
    {
        world.stays_safe();

        let turn = Turn {
            sandbox: self.sandbox,
            steps: self.steps,
        };
        world.run_plan(&[turn], gates)
    }
}
