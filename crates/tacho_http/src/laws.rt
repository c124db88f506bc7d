//! Laws about requests and replies. A law is a function that does nothing: what it ensures is proved, and holds for everything that it
//! names. Each calls the laws on which it depends.

ghost use Rattle.std.specs.Prelude.{List};
ghost use Rattle.tacho_http.specs.Access.{OwnWants, PostsAreCommands};
ghost use Rattle.tacho_http.specs.Laws.{Keeps503, KeepsOthers, OneReply, SameReply};
ghost use Rattle.tacho_http.specs.Pages.{ReactsOrGives};
ghost use Rattle.tacho_http.specs.Serve.{Reacts};
ghost use Rattle.tacho_message.specs.declared.reply.PageFile.{PageFile};

use tacho_desk::laws::{own_tasks_have_one_answer, own_tasks_stand_alone, refusals_change_nothing};

/// A driver's key is granted only the import of the driver's card and readings about the driver. Whatever is granted to a POST is a
/// command.
pub fn drivers_ask_for_their_own()
    ensures own { OwnWants }
    ensures posts { PostsAreCommands }
{}

/// A reply of 503 leaves the archive as it was: a command that was committed is never answered with it.
pub fn unavailable_keeps_the_state()
    ensures alone { Keeps503 Reacts }
    ensures pages { (files : List PageFile) → Keeps503 (ReactsOrGives files) }
{
    refusals_change_nothing();
}

/// A request with a driver's key depends on the driver's rows alone, and changes no other driver's. In two archives with the same rows of
/// the driver it gets the same reply, except for 503, and leaves the same rows of the driver.
pub fn isolated()
    ensures same { SameReply Reacts }
    ensures one { OneReply Reacts }
    ensures others { KeepsOthers Reacts }
{
    drivers_ask_for_their_own();
    own_tasks_stand_alone();
    own_tasks_have_one_answer();
}

/// Page files change nothing of that, whatever files these are.
pub fn isolated_with_pages()
    ensures same { (files : List PageFile) → SameReply (ReactsOrGives files) }
    ensures one { (files : List PageFile) → OneReply (ReactsOrGives files) }
    ensures others { (files : List PageFile) → KeepsOthers (ReactsOrGives files) }
{
    isolated();
}
