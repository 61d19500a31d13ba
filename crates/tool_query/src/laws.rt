//! Laws of the output of a command, each the contract of a function that does nothing.
ghost use Rattle.tool_query.specs.Laws.{OutputIsOne};

use budget::budget_is_one;
use code_file::one_code;
use mspec_meaning::one_answer_is_meant;
use mspec_reader::one_specification_is_read;
use term_text::a_text_spells_one_list;
use verifier::depth_is_one;

/// States that the output of a command that ends well is a function of its input. A text spells one list of terms; the
/// first of them is read as one specification and is the file of one code; and these have one meaning, one file, one
/// budget and one depth.
pub fn output_is_one()
    ensures { OutputIsOne }
{
    a_text_spells_one_list();
    one_specification_is_read();
    one_answer_is_meant();
    one_code();
    budget_is_one();
    depth_is_one();
}
