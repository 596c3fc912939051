//! Laws of the definitions. Each function's contract is one law; calling it does nothing.

ghost use Rattle.std.specs.Prelude.{◌≡◌, ℕ, List};
ghost use Rattle.uefi_vars.specs.Vars.{Variables};
ghost use Rattle.boot_requests.specs.declared.reply.Reply.{Reply};
ghost use Rattle.boot_commands.specs.declared.fault.ScriptRunFault.{ScriptRunFault};
ghost use Rattle.boot_requests.specs.declared.input_format.InputFormat.TheVariants as input;
ghost use Rattle.boot_commands.specs.Runs.{RunsIn};
ghost use Rattle.boot_commands.specs.RunFault.{IsFirstFaultIn};

use boot_requests::laws;

/// A text and variables have one first fault at most.
pub fn a_script_has_one_first_fault()
    ensures { (text : List ℕ) (vars : Variables) (f g : ScriptRunFault) →
        IsFirstFaultIn input.Script text vars f → IsFirstFaultIn input.Script text vars g → f ≡ g }
{}

/// A script leads from variables to others in one way at most, with one list of answers.
pub fn a_script_has_one_run()
    ensures variables { (text : List ℕ) (before a b : Variables) (x y : List Reply) →
        RunsIn input.Script text before a x → RunsIn input.Script text before b y → a ≡ b }
    ensures answers { (text : List ℕ) (before a b : Variables) (x y : List Reply) →
        RunsIn input.Script text before a x → RunsIn input.Script text before b y → x ≡ y }
{
    laws::an_event_is_seen_as_one();
    laws::an_event_has_one_reply();
}

/// A stream and variables have one first fault at most.
pub fn a_stream_has_one_first_fault()
    ensures { (stream : List ℕ) (vars : Variables) (f g : ScriptRunFault) →
        IsFirstFaultIn input.Stream stream vars f → IsFirstFaultIn input.Stream stream vars g → f ≡ g }
{}

/// A stream leads from variables to others in one way at most, with one list of answers.
pub fn a_stream_has_one_run()
    ensures variables { (stream : List ℕ) (before a b : Variables) (x y : List Reply) →
        RunsIn input.Stream stream before a x → RunsIn input.Stream stream before b y → a ≡ b }
    ensures answers { (stream : List ℕ) (before a b : Variables) (x y : List Reply) →
        RunsIn input.Stream stream before a x → RunsIn input.Stream stream before b y → x ≡ y }
{
    laws::an_event_is_seen_as_one();
    laws::an_event_has_one_reply();
}
