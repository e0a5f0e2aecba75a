//! Keys of calls of cached apps.

ghost use Rattle.std.specs.Prelude.{◌≡◌, ◌∷◌, [], IfOk, map};
ghost use Rattle.std.specs.Arc.{arc_value};
ghost use Rattle.std.specs.Cmp.{decided, partial_equiv_from_equiv};
ghost use Rattle.std.specs.Hash.{same_Alike};
ghost use Rattle.memo_table.specs.Keys.{key_data, digest_of, same_key};
ghost use Rattle.memo_table.specs.Decisions.{keys_decide};
ghost use Rattle.serde_json.specs.View.{view};

use flow_base::{Items, Names, Text, Value, all_same, same_names};
use flow_codec::{text_json, texts_json, values_json};
use serde_json::Value as Json;
use sha2::{Digest, Sha256};
use std::alloc::{AllocError, Global};
use std::hash::{Hash, Hasher};
use std::marker::Model;
use std::sync::Arc;

/// The key of a call of a cached app: the app's canonical text, which the keys of its calls share, the arguments
/// and the names of the files. It keeps the SHA-256 of all three. Two keys are equal where all three are.
#[derive(Drop)]
pub struct Key {
    app: Arc<Text>,
    arguments: Items,
    names: Names,
    digest: [u8; 32],
}

impl Model for Key {
    ghost use Rattle.std.specs.Prelude.{◌≡◌};
    ghost use Rattle.std.specs.Arc.{arc_value};
    ghost use Rattle.std.specs.Coded.{codes};
    ghost use Rattle.flow_base.specs.contracts.value.Value as value;
    ghost use Rattle.memo_table.specs.Keys.{KeyView, digest_of};

    ghost Value = { KeyView };

    ghost coded = { Prim.hlevel (codes, value.the_row.coded) };

    ghost view = { λ k. record { app = arc_value k.app; arguments = k.arguments; names = k.names } };

    ghost invariant = { λ k. k.digest ≡ digest_of (record { app = arc_value k.app; arguments = k.arguments; names = k.names }) };
}

/// The parts of a key as JSON: the app's text, the array of arguments, and the array of names.
pub fn key_json(
    alloc: Global,
    app: &Text,
    arguments: &[Value],
    names: &[Text],
) -> Result<Vec<Json>, AllocError>
    ensures { IfOk result (λ list. map view list.items ≡ key_data (record { app = app.now; arguments = arguments.now; names = names.now })) }
{
    let mut list = Vec::new(alloc);
    list.push(text_json(alloc, app)?)?;
    list.push(Json::Array(values_json(alloc, arguments)?))?;
    list.push(Json::Array(texts_json(alloc, names)?))?;
    Ok(list)
}

// The SHA-256 of the compact JSON array of the parts.
fn digest(
    alloc: Global,
    app: &Text,
    arguments: &[Value],
    names: &[Text],
) -> Result<[u8; 32], AllocError>
    ensures { IfOk result (λ digest. digest ≡ digest_of (record { app = app.now; arguments = arguments.now; names = names.now })) }
{
    let json = Json::Array(key_json(alloc, app, arguments, names)?);
    let text = json.to_vec(alloc)?;
    Ok(Sha256::digest(text.as_slice()))
}

impl Key {
    /// The key of a call of the app with this canonical text. It fails for want of memory alone.
    pub fn new(
        alloc: Global,
        app: Arc<Text>,
        arguments: Items,
        names: Names,
    ) -> Result<Key, AllocError>
        ensures { IfOk result (λ key. key ≡ record { app = arc_value app; arguments = arguments; names = names }) }
    {
        let digest = digest(alloc, &app, arguments.as_slice(), names.as_slice())?;
        Ok(Key {
            app,
            arguments,
            names,
            digest,
        })
    }

    /// The app's canonical text.
    pub fn app(&self) -> &Text
        ensures { result.now ≡ self.now.app }
    {
        &self.app
    }

    /// The arguments.
    pub fn arguments(&self) -> &Items
        ensures { result.now ≡ self.now.arguments }
    {
        &self.arguments
    }

    /// The names of the files, one an output.
    pub fn names(&self) -> &Names
        ensures { result.now ≡ self.now.names }
    {
        &self.names
    }
}

impl PartialEq for Key {
    ghost eq = { same_key };

    ghost laws = { partial_equiv_from_equiv (decided same_key keys_decide) };

    fn eq(&self, other: &Key) -> bool {
        self.app.same(&other.app)
            && all_same(self.arguments.as_slice(), other.arguments.as_slice())
            && same_names(self.names.as_slice(), other.names.as_slice())
    }
}

impl Eq for Key {
    ghost laws = { decided same_key keys_decide };
}

impl Hash for Key {
    ghost hash_input = { λ key. digest_of key ∷ [] };

    ghost respects_eq = { (same_Alike (λ key. digest_of key ∷ []) keys_decide).fed };

    fn hash<H: Hasher>(&self, state: &mut H) {
        state.write(&self.digest);
    }
}
