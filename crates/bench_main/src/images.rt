// The bench that a run starts from: at power-up, or as an image has it.
use crate::files::{Buffer, LongWord};
use crate::{files, told, words};
use base::Answer;
use bench::Bench;
use std::fs::File;

fn restored(rt: &HostRuntime, name: &[u8], image: &[u8]) -> Option<Bench> {
    let restored = image::restore(Bench::power_up(), image, 0);
    if let Answer::Refused(refusal) = restored.answer {
        told::not_restored(rt, name, refusal);
        return None;
    }
    Some(restored.bench)
}

// What stands in a file behind the image is not looked at; an image is shorter than the room for it.
fn read(rt: &HostRuntime, name: &[u8], file: &mut File) -> Option<Bench> {
    let mut image: Buffer = files::room();
    match files::read_on(file, &mut image, 0) {
        Ok(end) => restored(rt, name, &image[..end]),
        Err(error) => {
            told::failed(rt, name, error);
            None
        }
    }
}

// The image whose name stands at this place; without one, the bench at power-up. Where there is no bench, what is wrong was told.
pub(crate) fn open(rt: &HostRuntime, place: Option<usize>) -> Option<Bench> {
    let Some(place) = place else {
        return Some(Bench::power_up());
    };
    let mut word: LongWord = files::room();
    let length = words::at(rt, place, &mut word);
    let name = &word[..length];
    match files::open(rt, name) {
        Ok(mut file) => read(rt, name, &mut file),
        Err(error) => {
            told::failed(rt, name, error);
            None
        }
    }
}
