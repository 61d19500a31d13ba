//! A law of the output, the contract of a function that does nothing.
ghost use Rattle.tool_explain.specs.Laws.{ExplanationIsOne};

use budget::budget_is_one;
use code_file::one_code;
use mspec_reader::one_specification_is_read;
use term_text::a_text_spells_one_list;
use verifier::depth_is_one;

/// States that the output of a command that ends well is a function of its input. A text spells one list of terms, of
/// which the first is read as one specification or is the file of one code, and code has one budget and one depth.
pub fn explanation_is_one()
    ensures { ExplanationIsOne }
{
    a_text_spells_one_list();
    one_specification_is_read();
    one_code();
    budget_is_one();
    depth_is_one();
}
