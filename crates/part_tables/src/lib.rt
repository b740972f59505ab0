//! How messages with rows travel in parts, a header and a fragment for each chunk that is sent, and what a receiver
//! makes of parts: what it completes is a whole message, which its step table takes.
#![tactic(auto)]
