// The words of the command line.
ghost use Rattle.std.specs.Prelude.{◌≡◌, string_bytes, IfOk, IfSome};
ghost use Rattle.std.specs.Option.{option_map};
ghost use Rattle.command.specs.Words.{words_of, is_operand, are_operands, map_name, report_name, form};
ghost use Rattle.command.specs.Views.{command_of};

use std::alloc::{AllocError, Global};

/// What `one FILE OUT` asks for, with the names of the map and the report.
#[derive(Drop)]
pub struct Request<'a> {
    pub file: &'a str,
    pub out: &'a str,
    pub map: String,
    pub report: String,
}

fn is_operand(word: &str) -> bool
    ensures { result ≡ is_operand word.now }
{
    match word.as_bytes() {
        [] => false,
        [first, ..] => *first != b'-',
    }
}

fn are_operands(file: &str, out: &str, map: &str, report: &str) -> bool
    requires map { map.now ≡ map_name out.now }
    requires report { report.now ≡ report_name out.now }
    ensures { result ≡ are_operands file.now out.now }
{
    is_operand(file) && is_operand(out) && file != out && file != map && file != report
}

/// The request that the words form, if they form one. It fails for want of memory alone.
pub fn read_words<'a>(alloc: Global, words: &'a [String]) -> Result<Option<Request<'a>>, AllocError>
    ensures form { IfOk result (λ request. option_map command_of request ≡ form (words_of words.now)) }
    ensures map { IfOk result (λ request. IfSome request (λ r. string_bytes r.map ≡ map_name r.out.now)) }
    ensures report { IfOk result (λ request. IfSome request (λ r. string_bytes r.report ≡ report_name r.out.now)) }
{
    let [mode, file, out] = words else {
        return Ok(None);
    };
    let file = file.as_str();
    let out = out.as_str();
    let map = format!(in alloc; "{out}.map")?;
    let report = format!(in alloc; "{out}.report")?;
    let named = mode.as_str() == "one";
    if named && are_operands(file, out, map.as_str(), report.as_str()) {
        Ok(Some(Request {
            file,
            out,
            map,
            report,
        }))
    } else {
        Ok(None)
    }
}
