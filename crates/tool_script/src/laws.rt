//! Laws of the replies to a script and of the output of a shell, each the contract of a function that does nothing.
ghost use Rattle.tool_script.specs.Laws.{RepliesAreOne, ShellOutputIsOne, LinesAreAScript, AScriptIsAShell};

use mspec_meaning::one_answer_is_meant;
use mspec_reader::{one_fault_is_refused, one_specification_is_read};
use term_text::{a_text_has_one_fault, a_text_spells_one_list};
use walk_query::plans_are_one;

/// States that, from a state, the same terms always have the same replies: a term is read as one specification or
/// rejected for one fault, and a specification means one answer on each object and names one list of keys.
pub fn replies_are_one()
    ensures { RepliesAreOne }
{
    one_specification_is_read();
    one_fault_is_refused();
    one_answer_is_meant();
    plans_are_one();
}

/// States that the output of a shell for an input is determined: a text spells one list of terms or is rejected for one
/// fault, and a term has one reply.
pub fn shell_output_is_one()
    ensures { ShellOutputIsOne }
{
    one_specification_is_read();
    one_fault_is_refused();
    one_answer_is_meant();
    plans_are_one();
    a_text_spells_one_list();
    a_text_has_one_fault();
}

/// States that, if each line contains whole commands, the output of a shell is the replies to a script of these
/// commands.
pub fn lines_are_a_script()
    ensures { LinesAreAScript }
{
    a_text_spells_one_list();
}

/// States that, wherever a script is cut into lines, with no empty line inside of a term, the output of a shell for it
/// is the replies to the script. A pending text that ends too early goes on, and is never rejected.
pub fn a_script_is_a_shell()
    ensures { AScriptIsAShell }
{
    a_text_spells_one_list();
    a_text_has_one_fault();
}
