//! What holds of all files, whoever reads them. Each function does nothing; its contract is the law.
ghost use Rattle.std.specs.Prelude.{◌≡◌, ◌⊎◌, Option};
ghost use Rattle.jh_cli.specs.Words.{Request, IsSerial};
ghost use Rattle.jh_image.specs.Files.{Contents};
ghost use Rattle.jh_cli.specs.Reading.{Reply};
ghost use Rattle.jh_cli.specs.Outcome.{Outcome, IsCertainOutcome};
ghost use Rattle.jh_cli.specs.Complete.{AreKnownFiles, AreGood, MayEndWith};

use crate::status::Status;
use jh_cellcfg::{one_spelling, spelling_has_no_fault};
use jh_image::{
    boards_have_one_cause, boards_make_one_image, boards_that_make_an_image_are_not_refused,
};
use jh_pins::pins_have_one_text;
use jh_run::maps_have_one_text;
use jh_syscfg::{one_system_spelling, system_has_no_fault};
use jh_text::{one_answer, texts_go_both_ways};

/// Good words and files are answered: the status is that of the command's answer, or tells that a file could not be
/// read.
pub fn good_inputs_are_answered()
    ensures { (contents : Contents) (request : Option Request) (reply : Reply) (good : AreGood contents request)
        → Outcome contents request reply → MayEndWith contents request good reply.status ⊎ (reply.status ≡ Status.ReadFault) }
{
    spelling_has_no_fault();
    system_has_no_fault();
    one_system_spelling();
    one_answer();
    boards_make_one_image();
    boards_that_make_an_image_are_not_refused();
}

/// Where the files tell what they hold, words whose command isn't `run` or `soak` have one outcome besides that a file
/// could not be read: one status and one text. What those two write may differ from call to call, as their threads take
/// turns.
pub fn words_have_one_outcome()
    ensures { (contents : Contents) (request : Option Request) (one other : Reply) → IsSerial request → AreKnownFiles contents request
        → IsCertainOutcome contents request one → IsCertainOutcome contents request other → one ≡ other }
{
    spelling_has_no_fault();
    system_has_no_fault();
    one_spelling();
    one_system_spelling();
    one_answer();
    texts_go_both_ways();
    boards_make_one_image();
    boards_that_make_an_image_are_not_refused();
    boards_have_one_cause();
    maps_have_one_text();
    pins_have_one_text();
}
