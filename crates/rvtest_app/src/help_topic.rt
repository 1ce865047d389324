//! What `help` prints for a topic that is not a command.

ghost use Rattle.std.specs.Prelude.{◌≡◌, IfErr, IfOk};
ghost use Rattle.rv_command.specs.Stops.{IsStop};
ghost use Rattle.rvtest_app.specs.HelpTopics.{IsNoTopicStop, IsTopicPrinted, no_topic_message};

use crate::command_result::CommandResult;
use crate::list_keys::LIST_KEYS;
use rv_command::{DONE, Stop};
use rv_job_text::{Span, push_text, text_of_spans};
use rvtest_cli::HelpArgs;
use std::alloc::{AllocError, Global};

/// Returns the help about the keys of a job list if the topic is `keys`; an error for any other topic.
pub(crate) fn topic_help(alloc: Global, args: HelpArgs<'_>) -> Result<CommandResult, Stop>
    ensures printed { IfOk result (λ output. IsTopicPrinted args.entry.topic.now output.text.items output.status) }
    ensures stopped { IfErr result (IsNoTopicStop args.entry.topic.now) }
{
    if args.topic != "keys" {
        return Err(no_topic_stop(alloc, args.topic));
    }
    let mut text = Vec::new(alloc);
    push_text(&mut text, LIST_KEYS)?;
    Ok(CommandResult { text, status: DONE })
}

// Returns the error for an unknown topic.
fn no_topic_stop(alloc: Global, topic: &str) -> Stop
    ensures { IsStop 2 (no_topic_message topic.now) result }
{
    Stop::rejection(no_topic_message(alloc, topic))
}

// Returns the message for an unknown topic.
fn no_topic_message(alloc: Global, topic: &str) -> Result<Vec<u8>, AllocError>
    ensures { IfOk result (λ message. message.items ≡ no_topic_message topic.now) }
{
    text_of_spans(
        alloc,
        &[
            Span::Text("rvtest: unknown help topic \""),
            Span::Value(topic.as_bytes()),
            Span::Text(
                "\": try \"help keys\" for the keys of a list, or \"help COMMAND\" for a command\n",
            ),
        ],
    )
}
