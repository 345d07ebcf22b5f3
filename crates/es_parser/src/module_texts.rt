/// Modules: ECMA-262, 16.2, and the kinds of sources.
pub const MODULE_TEXTS: &str = r##"# 16.2.2, Imports
module import "a" -> ImportDeclaration([] "a"=a)
module import "a";b -> ImportDeclaration([] "a"=a) b;
module import a from "b" -> ImportDeclaration([ImportDefaultSpecifier(a)] "b"=b)
module import * as a from "b" -> ImportDeclaration([ImportNamespaceSpecifier(a)] "b"=b)
module import {} from "a" -> ImportDeclaration([] "a"=a)
module import {a} from "b" -> ImportDeclaration([ImportSpecifier(a a)] "b"=b)
module import {a,} from "b" -> ImportDeclaration([ImportSpecifier(a a)] "b"=b)
module import {a,b as c} from "d" -> ImportDeclaration([ImportSpecifier(a a) ImportSpecifier(b c)] "d"=d)
module import {if as a} from "b" -> ImportDeclaration([ImportSpecifier(if a)] "b"=b)
module import {default as a} from "b" -> ImportDeclaration([ImportSpecifier(default a)] "b"=b)
module import {"a" as b} from "c" -> ImportDeclaration([ImportSpecifier("a"=a b)] "c"=c)
module import {as} from "a" -> ImportDeclaration([ImportSpecifier(as as)] "a"=a)
module import {as as a} from "b" -> ImportDeclaration([ImportSpecifier(as a)] "b"=b)
module import {a as as} from "b" -> ImportDeclaration([ImportSpecifier(a as)] "b"=b)
module import {as as as} from "b" -> ImportDeclaration([ImportSpecifier(as as)] "b"=b)
module import {from} from "a" -> ImportDeclaration([ImportSpecifier(from from)] "a"=a)
module import a,* as b from "c" -> ImportDeclaration([ImportDefaultSpecifier(a) ImportNamespaceSpecifier(b)] "c"=c)
module import a,{b,c as d} from "e" -> ImportDeclaration([ImportDefaultSpecifier(a) ImportSpecifier(b b) ImportSpecifier(c d)] "e"=e)
module import a,{} from "b" -> ImportDeclaration([ImportDefaultSpecifier(a)] "b"=b)
module import from from "a" -> ImportDeclaration([ImportDefaultSpecifier(from)] "a"=a)
module import as from "a" -> ImportDeclaration([ImportDefaultSpecifier(as)] "a"=a)
module import async from "a" -> ImportDeclaration([ImportDefaultSpecifier(async)] "a"=a)
module import␊a␊from␊"b" -> ImportDeclaration([ImportDefaultSpecifier(a)] "b"=b)
module import a from "b"␊import c from "d" -> ImportDeclaration([ImportDefaultSpecifier(a)] "b"=b) ImportDeclaration([ImportDefaultSpecifier(c)] "d"=d)
module import a -> Unread 0
module import a from -> Unread 0
module import a from b -> Unread 0
module import from "a" -> Unread 0
module import * from "a" -> Unread 0
module import * as if from "a" -> Unread 0
module import {"a"} from "b" -> Unread 0
module import {if} from "a" -> Unread 0
module import {default} from "a" -> Unread 0
module import {a as if} from "b" -> Unread 0
module import {a as "b"} from "c" -> Unread 0
module import {as as} from "a" -> Unread 0
module import {a b} from "c" -> Unread 0
module import {,} from "a" -> Unread 0
module import {a,,b} from "c" -> Unread 0
module import {...a} from "b" -> Unread 0
module import {a:b} from "c" -> Unread 0
module import a,b from "c" -> Unread 0
module import a, from "b" -> Unread 0
module import {a},b from "c" -> Unread 0
module import * as a,b from "c" -> Unread 0
module import if from "a" -> Unread 0
module import await from "a" -> Unread 0
module import {await} from "a" -> Unread 0
module import yield from "a" -> Unread 0
module import let from "a" -> Unread 0
module import a from "b" import c from "d" -> Unread 0
module import a from `b` -> Unread 0
module import a from "b" c -> Unread 0
module {import "a"} -> Unread 0
module if(a)import "b" -> Unread 0
module function f(){import "a"} -> Unread 0
module a:import "b" -> Unread 0
module import("a") -> ImportExpression("a"=a);
module import("a").b;import "c" -> MemberExpression(ImportExpression("a"=a) b); ImportDeclaration([] "c"=c)
module import␊("a") -> ImportExpression("a"=a);
module import.meta.a;import "b" -> MemberExpression(MetaProperty(import meta) a); ImportDeclaration([] "b"=b)
script import "a" -> Unread 0
script import a from "b" -> Unread 0
commonjs import {a} from "b" -> Unread 0
script import("a") -> ImportExpression("a"=a);
# 16.2.3, Exports
module export {} -> ExportNamedDeclaration(_ [] _)
module export {} from "a" -> ExportNamedDeclaration(_ [] "a"=a)
module var a;export {a} -> VariableDeclaration:var([VariableDeclarator(a _)]) ExportNamedDeclaration(_ [ExportSpecifier(a a)] _)
module export {a} from "b" -> ExportNamedDeclaration(_ [ExportSpecifier(a a)] "b"=b)
module export {a,} from "b" -> ExportNamedDeclaration(_ [ExportSpecifier(a a)] "b"=b)
module export {a as b,c} from "d" -> ExportNamedDeclaration(_ [ExportSpecifier(a b) ExportSpecifier(c c)] "d"=d)
module export {if} from "a" -> ExportNamedDeclaration(_ [ExportSpecifier(if if)] "a"=a)
module export {if as a} from "b" -> ExportNamedDeclaration(_ [ExportSpecifier(if a)] "b"=b)
module export {a as if} from "b" -> ExportNamedDeclaration(_ [ExportSpecifier(a if)] "b"=b)
module export {default} from "a" -> ExportNamedDeclaration(_ [ExportSpecifier(default default)] "a"=a)
module export {a as default} from "b" -> ExportNamedDeclaration(_ [ExportSpecifier(a default)] "b"=b)
module export {default as default} from "a" -> ExportNamedDeclaration(_ [ExportSpecifier(default default)] "a"=a)
module export {"a"} from "b" -> ExportNamedDeclaration(_ [ExportSpecifier("a"=a "a"=a)] "b"=b)
module export {"a" as b} from "c" -> ExportNamedDeclaration(_ [ExportSpecifier("a"=a b)] "c"=c)
module export {a as "b"} from "c" -> ExportNamedDeclaration(_ [ExportSpecifier(a "b"=b)] "c"=c)
module export {"a" as "b"} from "c" -> ExportNamedDeclaration(_ [ExportSpecifier("a"=a "b"=b)] "c"=c)
module export {as} from "a" -> ExportNamedDeclaration(_ [ExportSpecifier(as as)] "a"=a)
module export {as as as} from "a" -> ExportNamedDeclaration(_ [ExportSpecifier(as as)] "a"=a)
module var a;export {a as b,a as "c"} -> VariableDeclaration:var([VariableDeclarator(a _)]) ExportNamedDeclaration(_ [ExportSpecifier(a b) ExportSpecifier(a "c"=c)] _)
module export {a}␊from "b" -> ExportNamedDeclaration(_ [ExportSpecifier(a a)] "b"=b)
module var a;export {a}␊b -> VariableDeclaration:var([VariableDeclarator(a _)]) ExportNamedDeclaration(_ [ExportSpecifier(a a)] _) b;
module export {if} -> ExportNamedDeclaration(_ [ExportSpecifier(if if)] _)
module export {"a"} -> ExportNamedDeclaration(_ [ExportSpecifier("a"=a "a"=a)] _)
module export * from "a" -> ExportAllDeclaration(_ "a"=a)
module export * as a from "b" -> ExportAllDeclaration(a "b"=b)
module export * as if from "a" -> ExportAllDeclaration(if "a"=a)
module export * as default from "a" -> ExportAllDeclaration(default "a"=a)
module export * as "a" from "b" -> ExportAllDeclaration("a"=a "b"=b)
module export var a -> ExportNamedDeclaration(VariableDeclaration:var([VariableDeclarator(a _)]) [] _)
module export var a=b,c -> ExportNamedDeclaration(VariableDeclaration:var([VariableDeclarator(a b) VariableDeclarator(c _)]) [] _)
module export let a=b -> ExportNamedDeclaration(VariableDeclaration:let([VariableDeclarator(a b)]) [] _)
module export const a=b,{c}=d -> ExportNamedDeclaration(VariableDeclaration:const([VariableDeclarator(a b) VariableDeclarator(ObjectPattern([Property:init:shorthand(c c)]) d)]) [] _)
module export function a(){} -> ExportNamedDeclaration(FunctionDeclaration(a [] BlockStatement([])) [] _)
module export function*a(){} -> ExportNamedDeclaration(FunctionDeclaration:generator(a [] BlockStatement([])) [] _)
module export async function a(){} -> ExportNamedDeclaration(FunctionDeclaration:async(a [] BlockStatement([])) [] _)
module export async function*a(){} -> ExportNamedDeclaration(FunctionDeclaration:async:generator(a [] BlockStatement([])) [] _)
module export class A{} -> ExportNamedDeclaration(ClassDeclaration(A _ ClassBody([])) [] _)
module export class A extends B{} -> ExportNamedDeclaration(ClassDeclaration(A B ClassBody([])) [] _)
module export function a(){}b -> ExportNamedDeclaration(FunctionDeclaration(a [] BlockStatement([])) [] _) b;
module export default a -> ExportDefaultDeclaration(a)
module export default a; -> ExportDefaultDeclaration(a)
module export default a=b -> ExportDefaultDeclaration(AssignmentExpression:=(a b))
module export default (a,b) -> ExportDefaultDeclaration(SequenceExpression([a b]))
module export default {} -> ExportDefaultDeclaration(ObjectExpression([]))
module export default {a:b}.c -> ExportDefaultDeclaration(MemberExpression(ObjectExpression([Property:init(a b)]) c))
module export default [a]=b -> ExportDefaultDeclaration(AssignmentExpression:=(ArrayPattern([a]) b))
module export default function(){} -> ExportDefaultDeclaration(FunctionDeclaration(_ [] BlockStatement([])))
module export default function a(){} -> ExportDefaultDeclaration(FunctionDeclaration(a [] BlockStatement([])))
module export default function*(){} -> ExportDefaultDeclaration(FunctionDeclaration:generator(_ [] BlockStatement([])))
module export default async function(){} -> ExportDefaultDeclaration(FunctionDeclaration:async(_ [] BlockStatement([])))
module export default async function*a(){} -> ExportDefaultDeclaration(FunctionDeclaration:async:generator(a [] BlockStatement([])))
module export default class{} -> ExportDefaultDeclaration(ClassDeclaration(_ _ ClassBody([])))
module export default class A extends B{} -> ExportDefaultDeclaration(ClassDeclaration(A B ClassBody([])))
module export default class extends A{} -> ExportDefaultDeclaration(ClassDeclaration(_ A ClassBody([])))
module export default (function(){}) -> ExportDefaultDeclaration(FunctionExpression(_ [] BlockStatement([])))
module export default (class{}) -> ExportDefaultDeclaration(ClassExpression(_ _ ClassBody([])))
module export default a=>b -> ExportDefaultDeclaration(ArrowFunctionExpression:expression([a] b))
module export default async()=>a -> ExportDefaultDeclaration(ArrowFunctionExpression:async:expression([] a))
module export default async a=>b -> ExportDefaultDeclaration(ArrowFunctionExpression:async:expression([a] b))
module export default async -> ExportDefaultDeclaration(async)
module export default async␊function f(){} -> ExportDefaultDeclaration(async) FunctionDeclaration(f [] BlockStatement([]))
module export default await a -> ExportDefaultDeclaration(AwaitExpression(a))
module export default function(){}a -> ExportDefaultDeclaration(FunctionDeclaration(_ [] BlockStatement([]))) a;
module export default class{}␊(a) -> ExportDefaultDeclaration(ClassDeclaration(_ _ ClassBody([]))) a;
module export default new a -> ExportDefaultDeclaration(NewExpression(a []))
module export default function(){}.a -> Unread 27
module export default function(){}() -> Unread 27
module export default a,b -> Unread 0
module export default var a -> Unread 0
module export default let a=b -> Unread 0
module export default const a=b -> Unread 0
module export default if(a); -> Unread 0
module export default -> Unread 0
module export default a b -> Unread 0
module export -> Unread 0
module export a -> Unread 0
module export a=b -> Unread 0
module export {a}b -> Unread 0
module export {a}from b -> Unread 0
module export {a b} -> Unread 0
module export {,} -> Unread 0
module export {a,,b} -> Unread 0
module export {...a} -> Unread 0
module export {a:b} -> Unread 0
module export {a as} from "b" -> Unread 0
module export {a.b} -> Unread 0
module export {1} -> Unread 0
module export * -> Unread 0
module export * as a -> Unread 0
module export * from a -> Unread 0
module export *,a from "b" -> Unread 0
module export * as from "a" -> Unread 0
module export function(){} -> Unread 0
module export async function(){} -> Unread 0
module export class{} -> Unread 0
module export async␊function a(){} -> Unread 0
module export async()=>a -> Unread 0
module export let [a] -> Unread 0
module export "a" -> Unread 0
module export if(a); -> Unread 0
module export import "a" -> Unread 0
module export export {} -> Unread 0
module {export {}} -> Unread 0
module if(a)export {} -> Unread 0
module function f(){export {}} -> Unread 0
script export {} -> Unread 0
script export default a -> Unread 0
commonjs export var a -> Unread 0
# 16.1 and 16.2, whole programs, by the kind of the source
module ->
commonjs ->
script // a ->
module /* a */ ->
script #!a ->
module ␊␊ ->
script a;await;b -> a; await; b;
commonjs a;await;return -> a; await; ReturnStatement(_)
module a;await b -> a; AwaitExpression(b);
script a␊␊b; -> a; b;"##;
