ghost use Rattle.std.specs.Prelude.{◌≡◌, ◌<◌, ◌^◌, [], length, map, All, IfOk};
ghost use Rattle.dj_report.specs.trusted.Lines.{AreExactly};
ghost use Rattle.dj_file_rules.specs.Views.{path_file_view};
ghost use Rattle.dj_early_rules.specs.trusted.Malformed.{IsRefused};
ghost use Rattle.dj_link_rules.specs.trusted.Lines.{IsLinkLine};
ghost use Rattle.dj_link.specs.Rules.{declared_of};

use dj_image::Image;
use dj_link_rules::LinkError;
use dj_report::{PathFile, Violations};
use std::alloc::Global;

/// All violations of the rules 17 and 18, in order, each once, of files whose image this is. No file violates rule 1.
pub fn links(alloc: Global, image: &Image, files: &[PathFile<'_>]) -> Result<Violations, LinkError>
    requires plain { image.now.prefix ≡ [] }
    requires short { All (λ file. length file.bytes.now < 2 ^ 32) files.now }
    requires whole { All (λ file. IsRefused file.bytes.now → ⊥) files.now }
    ensures { IfOk result (AreExactly (IsLinkLine (declared_of image.now) (map path_file_view files.now))) }
{
    dj_link_rules::links(alloc, image.linker(), files)
}
