// What holds of the texts of maps and reports.
ghost use Rattle.definition_laws.specs.Texts.{MapTextsTellLines, LinesAreWellNamed, ReportTextsTellCounts, CountsAreSmall};

use project_set::written_is_proper;

/// A map text tells its lines.
pub fn map_texts_tell_lines()
    ensures lines { MapTextsTellLines }
    ensures named { LinesAreWellNamed }
{
    written_is_proper();
}

/// A report text tells its numbers.
pub fn report_texts_tell_counts()
    ensures counts { ReportTextsTellCounts }
    ensures small { CountsAreSmall }
{}
