// Worked cases of the libraries of pages, fumens and kick files.
#![tactic(auto)]

#[cfg(test)]
mod comments;
#[cfg(test)]
mod digits;
#[cfg(test)]
mod kick_files;
#[cfg(test)]
mod lists;
#[cfg(test)]
mod pages;
#[cfg(test)]
mod samples;
#[cfg(test)]
mod texts;
