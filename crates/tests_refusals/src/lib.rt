//! Tests in which each growth of memory is refused in turn: what is answered then, what stands as before, and that the
//! same call goes on once there is memory. Operations of clients and their server, requests to a whole server, and
//! stored blocks. What takes no memory is asked for while all of it is refused. A frame is cut, and a log's writer
//! fails, at each byte. A client stops at each call of its devices. Over files it marks a leaf only once all memory is
//! there.
#![tactic(auto)]

#[cfg(test)]
mod beside;
#[cfg(test)]
mod clients;
#[cfg(test)]
mod courses;
#[cfg(test)]
mod files;
#[cfg(test)]
mod frames;
#[cfg(test)]
mod here;
#[cfg(test)]
mod meter;
#[cfg(test)]
mod plans;
#[cfg(test)]
mod rows;
#[cfg(test)]
mod served;
#[cfg(test)]
mod stops;
#[cfg(test)]
mod stored;
#[cfg(test)]
mod without_memory;
#[cfg(test)]
mod writers;
