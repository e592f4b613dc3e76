//! The calls on bytes, contents and texts that contracts see as lists.

use hook_base::{Bytes, Content, Items, OutOfMemory, Text, copy_texts};
use std::alloc::Global;
use trial_rows::{AnswerBytes, Stop, text_of};

/// The length of copied bytes, whether their copy is the same, and whether the other bytes are.
pub(crate) fn copy_bytes(alloc: Global, bytes: &[u8], other: &[u8]) -> Result<AnswerBytes, Stop> {
    let copy = Bytes::copy_of(alloc, bytes)?;
    let is_same = copy.as_slice() == bytes && copy.clone()? == copy;
    let is_other = Bytes::copy_of(alloc, other)? == copy;
    let answer = AnswerBytes::new(alloc).shown(copy.len());
    Ok(answer.text(" ").shown(is_same).text(" ").shown(is_other))
}

/// The length of copied contents, whether all ways to copy them give the same, whether the other contents
/// are the same, and the digest. The ways are a copy, the bytes with a given digest, and the bytes that are
/// hashed at once.
pub(crate) fn copy_content(alloc: Global, bytes: &[u8], other: &[u8]) -> Result<AnswerBytes, Stop> {
    let content = Content::copy_of(alloc, bytes)?;
    let under = Content::with_digest(alloc, content.digest(), Bytes::copy_of(alloc, bytes)?)?;
    let hashed = Content::hashed(alloc, Bytes::copy_of(alloc, bytes)?)?;
    let is_hashed = hashed == under && hashed.digest() == content.digest();
    let is_same = content.as_slice() == bytes && content.clone()? == under && is_hashed;
    let is_other = Content::copy_of(alloc, other)? == content;
    let answer = AnswerBytes::new(alloc).shown(content.len());
    let answer = answer.text(" ").shown(is_same).text(" ").shown(is_other);
    with_digest(alloc, answer.text(" "), &content.digest())
}

fn with_digest(alloc: Global, answer: AnswerBytes, digest: &[u8; 32]) -> Result<AnswerBytes, Stop> {
    let mut answer = answer;
    for byte in digest {
        let digits = format!(in alloc; "{byte:02x}")?;
        answer = answer.text(digits.as_str());
    }
    Ok(answer)
}

/// A copied text, and whether its copy is the same.
pub(crate) fn copy_text(alloc: Global, text: &[u8]) -> Result<AnswerBytes, Stop> {
    let copy = Text::copy_of(alloc, text_of(text)?)?;
    let is_same = copy.clone()? == copy;
    Ok(
        AnswerBytes::new(alloc)
            .text(copy.as_str())
            .text(" ")
            .shown(is_same),
    )
}

/// The texts, copied together, and whether this copy and a copy of the list are the same.
pub(crate) fn copy_all(alloc: Global, words: &[Vec<u8>]) -> Result<AnswerBytes, Stop> {
    let texts = texts_of(alloc, words)?;
    let copy = copy_texts(alloc, texts.as_slice())?;
    let (is_same, is_clone) = (copy == texts, texts.clone()? == texts);
    let answer = with_texts(AnswerBytes::new(alloc), copy.as_slice());
    Ok(answer.shown(is_same).text(" ").shown(is_clone))
}

fn with_texts(answer: AnswerBytes, texts: &[Text]) -> AnswerBytes {
    let mut answer = answer;
    for text in texts {
        answer = answer.texts(&[text.as_str(), " "]);
    }
    answer
}

/// The arguments as texts.
pub(crate) fn texts_of(alloc: Global, words: &[Vec<u8>]) -> Result<Items<Text>, Stop> {
    let mut texts = Vec::new(alloc);
    for word in words {
        let text = Text::copy_of(alloc, text_of(word.as_slice())?)?;
        texts.push(text)?;
    }
    Ok(Items::from(texts))
}
