// Replies in words.
use crate::asked::Hall;
use anyhow::bail;
use journal::{Reply, Starts};

pub(crate) fn print_reply(rt: &impl Print, reply: &Reply<Hall, Hall>) -> anyhow::Result<()> {
    match reply {
        Reply::Changed(Ok(())) => println!(rt; "    done.")?,
        Reply::Changed(Err(refusal))
        | Reply::WindowIs(Err(refusal))
        | Reply::StartsAre(Err(refusal)) => {
            println!(rt; "    refused with {}.", refusal.number())?
        }
        Reply::ExchangedLeft(Ok(_)) | Reply::ExchangedRight(Ok(_)) => {
            println!(rt; "    exchanged.")?
        }
        Reply::ExchangedLeft(Err(_)) | Reply::ExchangedRight(Err(_)) => {
            println!(rt; "    not exchanged.")?
        }
        Reply::Advanced(state, made) => println!(rt; "    {state} after {made} rounds.")?,
        Reply::StateIs(state) => println!(rt; "    {state}.")?,
        Reply::SlackIs(slack) => println!(rt; "    {slack}.")?,
        Reply::WindowIs(Ok(window)) => {
            println!(rt; "    {} to {}.", window.floor, window.ceiling)?
        }
        Reply::StartsAre(Ok(starts)) => print_starts(rt, starts)?,
    }
    Ok(())
}

fn print_starts(rt: &impl Print, starts: &Starts) -> anyhow::Result<()> {
    let ([x, y], [z]) = (starts.lefts.as_slice(), starts.rights.as_slice()) else {
        bail!("the starts of another plan");
    };
    println!(rt; "    left bench 0 at {x}, left bench 1 at {y}, right bench 0 at {z}.")?;
    Ok(())
}
