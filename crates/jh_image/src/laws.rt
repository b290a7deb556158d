//! Laws. Each function does nothing; its contract is the law.
ghost use Rattle.std.specs.Prelude.{◌≡◌, ℕ, List};
ghost use Rattle.jh_script.specs.declared.image.Image.{Image as TheImage};
ghost use Rattle.jh_image.specs.declared.fault.ImageCause.{ImageCause as TheCause};
ghost use Rattle.jh_image.specs.declared.fault.ImageCause.TheVariants.{ReadFault};
ghost use Rattle.jh_image.specs.Files.{Contents};
ghost use Rattle.jh_image.specs.Images.{IsImage};
ghost use Rattle.jh_image.specs.Causes.{IsCauseOf};
ghost use Rattle.jh_image.specs.Laws.{AreKnown, IsCertainCause};

use jh_script::Image;
use jh_syscfg::{one_system_spelling, system_has_no_fault};

/// Where files tell what they hold, a board makes one image at most.
pub fn boards_make_one_image()
    ensures { (contents : Contents) (board : List ℕ) (one other : TheImage) → AreKnown contents → IsImage contents board one → IsImage contents board other → one ≡ other }
{
    one_system_spelling();
    system_has_no_fault();
}

/// Where files tell what they hold and a board makes an image, nothing stops its reading but a file that can't be
/// read.
pub fn boards_that_make_an_image_are_not_refused()
    ensures { (contents : Contents) (board file : List ℕ) (image : TheImage) (cause : TheCause) → AreKnown contents
        → IsImage contents board image → IsCauseOf contents board file cause → cause ≡ ReadFault }
{
    one_system_spelling();
    system_has_no_fault();
}

/// Where files tell what they hold, one cause at most stops the reading of a board, besides a file that can't be read,
/// and it names one file.
pub fn boards_have_one_cause()
    ensures { (contents : Contents) (board file other : List ℕ) (cause more : TheCause) → AreKnown contents
        → IsCertainCause contents board file cause → IsCertainCause contents board other more → (cause ≡ more) × (file ≡ other) }
{
    one_system_spelling();
    system_has_no_fault();
}
